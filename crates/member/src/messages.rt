//! The messages and notes of a member, and the units that they are about.
ghost use Rattle.std.specs.Prelude.{◌≡◌, ◌<◌, IfErr, IfOk, None, Some, length};
ghost use Rattle.protocol.specs.Answers.{message_of};
ghost use Rattle.protocol.specs.Sends.{sent_to};
ghost use Rattle.protocol.specs.State.{HasLetter, name_at};
ghost use Rattle.protocol.specs.Step.{stranger, unit_in};

use crate::Member;
use arrayvec::ArrayVec;
use ballots::{Body, Fact, Message, Note};
use engine::Letter;
use faults::Memory;
use pkgpath::PkgPath;
use protocol::{Refusal, Sends};

impl<'a> Member<'a> {
    /// The unit that the path names.
    pub(crate) fn unit_of(&self, path: &PkgPath) -> Result<u32, Refusal>
        ensures ok { IfOk result (λ unit. unit_in self.now path.now ≡ Some unit) }
        ensures err { IfErr result (λ e. (unit_in self.now path.now ≡ None)
            × (e ≡ stranger self.now path.now)) }
    {
        match self.units.find(path) {
            Some(unit) => Ok(unit),
            None if self.tree.position(path).is_some() => Err(Refusal::Ignored),
            None => Err(Refusal::Unlisted),
        }
    }

    /// The letter of the unit: that of its first package.
    pub(crate) fn unit_letter(&self, unit: u32) -> Letter
        requires { unit < length self.now.division.units }
        ensures { HasLetter self.now unit result }
    {
        let packages = self.units.packages(unit);
        self.engine.letter(packages[0])
    }

    /// The note of the fact about the unit.
    pub(crate) fn note_on(&self, unit: u32, fact: Fact) -> Result<Note, Memory>
        requires { unit < length self.now.division.units }
        ensures { IfOk result
            (λ note. note ≡ record { path = name_at self.now unit; fact = fact }) }
    {
        let path = self.units.name(unit).copy()?;
        Ok(Note { path, fact })
    }

    /// The message about the unit, to these receivers.
    pub(crate) fn sent(
        &self,
        unit: u32,
        receivers: ArrayVec<u8, 9>,
        body: Body,
    ) -> Result<Sends, Memory>
        requires { unit < length self.now.division.units }
        ensures { IfOk result (λ sends. sends
            ≡ sent_to (Some (message_of self.now unit body)) receivers.items) }
    {
        let path = self.units.name(unit).copy()?;
        let message = Message {
            sender: self.me,
            tree: self.digest,
            path,
            body,
        };
        Ok(Sends::new(message, receivers))
    }
}
