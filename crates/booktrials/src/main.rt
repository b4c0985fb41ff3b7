//! Runs the line book through its trials on both engines and says what came of each.

#![tactic(auto)]

mod dice;
mod lists;
mod log;
mod marks;
mod nets;
mod parallel;
mod rules;
mod say;
mod spent;
mod succession;
mod trial;
mod turn;
mod unopened;
mod walk;
mod worked;

use desk::Desk;
use engines::{Push, ShortestRoute};
use network::Engine;
use trial::Trial;

// Makes a trial at a desk of its own. Whatever comes of it, the desk is closed after it.
fn on_new_desk<E: Engine, F: FnOnce(&mut Trial<'_, E>) -> anyhow::Result<()>>(
    rt: &HostRuntime,
    trial: F,
) -> anyhow::Result<()>
    requires { F.IsAlwaysCallable trial }
{
    let mut desk: Desk<E> = Desk::new(rt.alloc())?;
    let ended = trial(&mut Trial {
        rt,
        desk: &mut desk,
    });
    desk.close();
    ended
}

fn try_all<E: Engine>(rt: &HostRuntime, name: &str) -> anyhow::Result<()> {
    println!(rt; "engine {name}")?;
    on_new_desk::<E, _>(rt, |trial| trial.try_worked())?;
    on_new_desk::<E, _>(rt, |trial| trial.try_unopened())?;
    on_new_desk::<E, _>(rt, |trial| trial.try_marks())?;
    on_new_desk::<E, _>(rt, |trial| trial.try_lists())?;
    on_new_desk::<E, _>(rt, |trial| trial.try_spent())?;
    on_new_desk::<E, _>(rt, |trial| trial.try_parallel())?;
    on_new_desk::<E, _>(rt, |trial| trial.try_succession())
}

fn try_both(rt: &HostRuntime) -> anyhow::Result<()> {
    try_all::<ShortestRoute>(rt, "shortest")?;
    try_all::<Push>(rt, "push")
}

fn main(rt: HostRuntime) -> anyhow::Result<()> {
    try_both(&rt)
}
