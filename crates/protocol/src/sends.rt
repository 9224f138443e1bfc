//! Messages and their receivers.
ghost use Rattle.std.specs.Prelude.{◌≡◌, ◌↔◌, [], IfOk, None, Some};
ghost use Rattle.std.specs.Option.{option_copied};
ghost use Rattle.protocol.specs.Sends.{receivers_of, sent_to};

use arrayvec::ArrayVec;
use ballots::Message;
use faults::Memory;
use std::marker::Model;

/// A message and the member that gets it.
#[derive(Drop)]
pub struct Send {
    /// The number of the receiver, which may be the sender itself.
    pub to: u8,
    pub message: Message,
}

impl Send {
    /// Copies the message and its receiver. Returns `Memory` if out of memory.
    pub fn copy(&self) -> Result<Send, Memory>
        ensures { IfOk result (λ send. send ≡ self.now) }
    {
        let message = self.message.copy()?;
        Ok(Send {
            to: self.to,
            message,
        })
    }
}

/// What a step sends: one message, which all its receivers share, or nothing. A message without
/// receivers is not sent. Contracts see the list of what is sent, in order of receiver.
#[derive(Drop)]
pub struct Sends {
    message: Option<Message>,
    receivers: ArrayVec<u8, 9>,
}

impl Model for Sends {
    ghost use Rattle.std.specs.Prelude.{◌≡◌, ◌↔◌, [], List, None};
    ghost use Rattle.protocol.specs.Sends.{sent_to};
    ghost use Rattle.protocol.specs.declared.sends.Send.{Send};

    ghost Value = { List Send };

    ghost view = { λ s. sent_to s.message s.receivers.items };

    ghost invariant = { λ s. (s.message ≡ None) ↔ (s.receivers.items ≡ []) };
}

impl Sends {
    /// Sends nothing.
    pub fn nothing() -> Sends
        ensures { result ≡ [] }
    {
        Sends {
            message: None,
            receivers: ArrayVec::new(),
        }
    }

    /// Sends the message to these members, or nothing if there are none.
    pub fn new(message: Message, receivers: ArrayVec<u8, 9>) -> Sends
        ensures { result ≡ sent_to (Some message) receivers.items }
    {
        if receivers.is_empty() {
            return Sends::nothing();
        }
        Sends {
            message: Some(message),
            receivers,
        }
    }

    /// The members that get the message, in order of number.
    pub fn receivers(&self) -> &[u8]
        ensures { result.now ≡ receivers_of self.now }
    {
        self.receivers.as_slice()
    }

    /// The message, if one is sent.
    pub fn message(&self) -> Option<&Message>
        ensures sent { self.now ≡ sent_to (option_copied result) (receivers_of self.now) }
        ensures nobody { (result ≡ None) ↔ (self.now ≡ []) }
    {
        self.message.as_ref()
    }

    /// Copies what is sent. Returns `Memory` if out of memory.
    pub fn copy(&self) -> Result<Sends, Memory>
        ensures { IfOk result (λ sends. sends ≡ self.now) }
    {
        match &self.message {
            Some(message) => {
                let message = message.copy()?;
                let receivers = self.receivers.clone()?;
                Ok(Sends::new(message, receivers))
            }
            None => Ok(Sends::nothing()),
        }
    }
}
