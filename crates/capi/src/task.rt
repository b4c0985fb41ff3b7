//! Work on the network of a file, over the engine of a number.

ghost use Rattle.std.specs.Prelude.{ℕ, List, length};
ghost use Rattle.network.specs.declared.line.Line.{Line};
ghost use Rattle.network.specs.declared.site.Site.{Site};
ghost use Rattle.book.specs.Calls.{sites_of, lines_of};
ghost use Rattle.cuttree.specs.Trees.{Lawful};
ghost use Rattle.capi.specs.Calls.{Idle, Unopened, OnNetwork, OnFile, OverEngine, OverAny};

use crate::refusal::Refusal;
use desk::Desk;
use engines::{Push, ShortestRoute};
use network::Engine;
use std::alloc::Global;

/// Work on a desk on which a network was just opened, with a list to write to.
pub trait Task {
    type Entry;

    type Answer;

    // the number of the first check that denies it on these sites and lines with so much room in the list, or 0
    ghost check: { Self → List Site → List Line → ℕ → ℕ };

    // what it writes to the list and answers, on these sites and lines
    ghost done: { Self → List Site → List Line → List Self.Entry → List Self.Entry → Self.Answer → Type 0 };

    fn run<E: Engine>(
        &self,
        desk: &mut Desk<E>,
        list: &mut [Self::Entry],
    ) -> Result<Self::Answer, Refusal>
        requires lawful { Lawful (length (sites_of desk.old.book)) (lines_of desk.old.book) }
        requires idle { Idle desk.old 0 }
        ensures { OnNetwork (check self.now) (done self.now) (sites_of desk.old.book) (lines_of desk.old.book) list.old list.new result };
}

/// Does the task over the engine of a number. File, task and list are passed on one by one here and below: a struct of them would
/// be taken apart at each step.
pub fn with_engine<T: Task>(
    engine: u32,
    heap: Global,
    bytes: &[u8],
    task: &T,
    list: &mut [T::Entry],
) -> Result<T::Answer, Refusal>
    ensures { OverAny (T.check task.now) (T.done task.now) engine bytes.now list.old list.new result }
{
    // each arm is a type, picked by a number as the program runs: a table of functions would say the same
    match engine {
        0 => with_desk::<ShortestRoute, T>(heap, bytes, task, list),
        1 => with_desk::<Push, T>(heap, bytes, task, list),
        _ => Err(Refusal::NoEngine),
    }
}

// Does it at a new desk, and closes that.
fn with_desk<E: Engine, T: Task>(
    heap: Global,
    bytes: &[u8],
    task: &T,
    list: &mut [T::Entry],
) -> Result<T::Answer, Refusal>
    ensures { OverEngine (T.check task.now) (T.done task.now) bytes.now list.old list.new result }
{
    let mut desk = Desk::<E>::new(heap)?;
    let answer = on_file(&mut desk, bytes, task, list);
    desk.close();
    answer
}

// Opens the file on a desk that is lent and does the task there: whatever comes of it, the owner of the desk can close it.
fn on_file<E: Engine, T: Task>(
    desk: &mut Desk<E>,
    bytes: &[u8],
    task: &T,
    list: &mut [T::Entry],
) -> Result<T::Answer, Refusal>
    requires { Unopened desk.old }
    ensures { OnFile (T.check task.now) (T.done task.now) bytes.now list.old list.new result }
{
    desk.open(bytes, 0)?;
    task.run(desk, list)
}
