//! A long succession of calls in no order, each held against what the rules say of it.

use crate::dice::Dice;
use crate::log::Log;
use crate::nets::made_network;
use crate::say::say_whether;
use crate::trial::Trial;
use crate::turn::Succession;
use network::Engine;

const CALLS: usize = 2000;

impl<E: Engine> Trial<'_, E> {
    pub fn try_succession(&mut self) -> anyhow::Result<()> {
        println!(self.rt; " {CALLS} calls in no order on 12 sites and 40 lines")?;
        let file = made_network(self.rt.alloc(), 12, 40)?;
        self.open("open", &file, 7)?;
        let mut succession = Succession {
            heap: self.rt.alloc(),
            desk: self.desk,
            dice: Dice::new(2026),
            log: Log::new(self.rt.alloc()),
        };
        for _ in 0..CALLS {
            succession.take_turn()?;
        }
        let wrong = succession.log.wrong;
        println!(self.rt; "  calls that were not as they should be: {wrong}")?;
        say_whether(
            self.rt,
            "every kind of answer came 20 times and more",
            succession.log.saw_all(20),
        )
    }
}
