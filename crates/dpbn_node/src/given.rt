//! The builds and weights that a node is started with.
ghost use Rattle.std.specs.Prelude.{◌≡◌, ◌∷◌, ◌≤◌, IfErr, IfOk, Some, option_map, string_bytes, true};
ghost use Rattle.dpbn_node.specs.Node.{RefusesGiven};
ghost use Rattle.dpbn_node.specs.Given.{AreTold, RefusesWeights, weights_refusal, with_commas};
ghost use Rattle.program_io.specs.Refusals.{IsSystemRefusal};
ghost use Rattle.input_files.specs.Builds.{AreBuilds};

use arrayvec::ArrayVec;
use ballots::Weights;
use dpbn_cli::Files;
use input_files::builds_of_file;
use program_io::Refusal;
use protocol::Packages;
use stable_record::FileDisk;
use std::alloc::{AllocError, Global};

/// The builds that nodes use, and the members' weights.
#[derive(Drop)]
pub struct Given {
    pub builds: Packages,
    pub weights: Weights,
}

/// The builds in the file and the weights, as the arguments have them.
///
/// # Errors
///
/// Those of the builds, and then those of the weights.
pub fn given_of_words(rt: &HostRuntime, files: &Files<'_>) -> Result<Given, Refusal>
    requires few { files.now.members ≤ 9 }
    ensures builds { IfOk result (λ given. AreBuilds given.builds) }
    ensures weights { IfOk result (λ given.
        AreTold files.now.members (option_map (λ t. t.now) files.now.weights) given.weights) }
    ensures refused { IfErr result RefusesGiven }
{
    let builds = builds_of_file(rt, files.builds)?;
    let weights = weights_of_words(rt.alloc(), files.members, files.weights)?;
    Ok(Given { builds, weights })
}

/// The weights of this many members: those in the text, separated by commas, or 1 each if there is
/// none.
///
/// # Errors
///
/// Out of memory; bad weights, also if there aren't as many weights as members, or a weight isn't
/// written as a number is printed.
pub fn weights_of_words(alloc: Global, members: u8, told: Option<&str>) -> Result<Weights, Refusal>
    requires { members ≤ 9 }
    ensures ok { IfOk result (λ w. AreTold members (option_map (λ t. t.now) told.entry) w) }
    ensures refused { IfErr result RefusesWeights }
{
    match told {
        Some(told) => weights_of_text(alloc, members, told),
        None => weights_of(&[1; 9][..members as usize]),
    }
}

/// The weights of this many members that the text has.
fn weights_of_text(alloc: Global, members: u8, told: &str) -> Result<Weights, Refusal>
    ensures ok { IfOk result (λ w. AreTold members (Some told.now) w) }
    ensures refused { IfErr result RefusesWeights }
{
    let weights = numbers_in(told);
    if weights.len() != members as usize || !is_told(alloc, weights.as_slice(), told)? {
        return Err(bad_weights());
    }
    weights_of(weights.as_slice())
}

/// The numbers between commas, at most nine; 0 for a part that isn't a number.
fn numbers_in(told: &str) -> ArrayVec<u8, 9> {
    let mut numbers = ArrayVec::new();
    for part in told.split(',') {
        if numbers.len() < 9 {
            numbers.push(part.parse::<u8>().unwrap_or(0));
        }
    }
    numbers
}

/// Whether the text has exactly these numbers, separated by commas.
fn is_told(alloc: Global, numbers: &[u8], told: &str) -> Result<bool, AllocError>
    ensures { IfOk result (λ is. is ≡ true → with_commas numbers.now ≡ 44 ∷ told.now) }
{
    let spelled = text_of(alloc, numbers)?;
    let told = format!(in alloc; ",{told}")?;
    Ok(spelled.as_bytes() == told.as_bytes())
}

/// The numbers, each after a comma.
fn text_of(alloc: Global, numbers: &[u8]) -> Result<String, AllocError>
    ensures { IfOk result (λ text. string_bytes text ≡ with_commas numbers.now) }
{
    let mut text = String::new(alloc);
    for number in numbers {
        let number = *number;
        let part = format!(in alloc; ",{number}")?;
        text.push_str(part.as_str())?;
    }
    Ok(text)
}

/// The weights, if they are valid.
fn weights_of(weights: &[u8]) -> Result<Weights, Refusal>
    ensures ok { IfOk result (λ w. w ≡ weights.now) }
    ensures refused { IfErr result (λ r. r ≡ weights_refusal) }
{
    match Weights::new(weights) {
        Ok(weights) => Ok(weights),
        Err(_) => Err(bad_weights()),
    }
}

/// How bad weights are reported.
fn bad_weights() -> Refusal
    ensures { result ≡ weights_refusal }
{
    Refusal {
        number: 801,
        place: None,
    }
}

/// The disk of the member's log, which is a file in this folder. The folder must exist; the file is
/// created if it doesn't. The file is locked while the disk is open, so that a second node on it is
/// refused before it reads or cuts anything.
///
/// # Errors
///
/// The system's refusal. A locked file is reported as one that can't be read.
pub fn log_of_file(rt: &HostRuntime, folder: &str, me: u8) -> Result<FileDisk, Refusal>
    ensures { IfErr result IsSystemRefusal }
{
    let path = path_of(rt.alloc(), folder, me)?;
    let file = FileDisk::open_file(rt, path.as_str())?;
    match file.try_lock() {
        Ok(()) => Ok(FileDisk::new(file)),
        Err(_) => Err(Refusal::device()),
    }
}

/// The path of the member's log.
fn path_of(alloc: Global, folder: &str, me: u8) -> Result<String, AllocError> {
    format!(in alloc; "{folder}/node-{me}.log")
}
