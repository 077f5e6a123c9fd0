//! Schedules at random, which are the same at each run.
ghost use Rattle.std.specs.Prelude.{◌<◌, ◌≤◌, All, IfOk};

use mill_model::OutOfMemory;
use std::alloc::Global;

/// A generator of numbers.
#[derive(Clone, Copy, Debug)]
pub struct Draws {
    state: u64,
}

impl Draws {
    pub fn new(seed: u32) -> Draws {
        Draws {
            state: u64::from(seed),
        }
    }

    /// The next number.
    pub fn draw(&mut self) -> u32 {
        self.state = (self.state % 2_147_483_648 * 1_103_515_245 + 12_345) % 2_147_483_648;
        (self.state / 65_536) as u32
    }

    /// So many numbers of workers.
    pub fn schedule(
        &mut self,
        alloc: Global,
        workers: u16,
        length: u32,
    ) -> Result<Vec<u16>, OutOfMemory>
        requires { 1 ≤ workers }
        ensures { IfOk result (λ schedule. All (λ number. number < workers) schedule.items) }
    {
        let mut schedule = Vec::new(alloc);
        for _ in 0..length {
            let number = self.draw() % u32::from(workers);
            schedule.push(number as u16)?;
        }
        Ok(schedule)
    }
}
