#![tactic(auto)]

mod answers;
mod command;
mod line;
mod opening;
mod options;
mod reply;
mod serving;
mod session;
mod showing;

use desk::Desk;
use engines::{Push, ShortestRoute};
use network::Engine;
use options::{Method, read_options};
use session::Session;

// One session. Whatever comes, every booking that still stands is released at its end.
fn run<E: Engine>(rt: &HostRuntime, file: Option<&str>) -> anyhow::Result<()> {
    let mut desk: Desk<E> = Desk::new(rt.alloc())?;
    let mut session = Session {
        rt,
        desk: &mut desk,
    };
    let ended = session.work(file);
    desk.close();
    ended
}

fn start(rt: &HostRuntime) -> anyhow::Result<()> {
    let options = read_options(rt)?;
    let file = options.file.as_ref().map(|path| path.as_str());
    // The engine is a type, and a word picks it only as the program runs: a table of functions would say the same.
    match options.method {
        Method::Shortest => run::<ShortestRoute>(rt, file),
        Method::Push => run::<Push>(rt, file),
    }
}

fn main(rt: HostRuntime) -> anyhow::Result<()> {
    start(&rt)
}
