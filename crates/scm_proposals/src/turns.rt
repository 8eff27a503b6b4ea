//! A schedule of long turns: one process makes many operations, then another one does.
use crate::beginning::Beginning;
use crate::proposal::Proposer;
use crate::turn_ops::{TurnOp, turn_ops_of};
use scm_sequences::Op;

/// How many beginnings are kept of each number of turns.
const MOST_BEGINNINGS: usize = 128;

/// How many operations a turn has at least, in the mean, once there are so many turns.
const LEAST_TURN: u32 = 32;

const FIRST_TURNS: u32 = 3;

/// How many operations are looked at for each unit of fuel that is burnt.
const TURN_STEPS_OF_FUEL: u64 = 8;

/// The operations that some turns make, in this order. The last turn is of this process.
#[derive(Clone, Drop)]
struct Turns {
    schedule: Vec<u8>,
    made: Beginning,
    last: Option<usize>,
}

/// One turn more: after which beginning, of which process, and of how many operations.
#[derive(Clone, Copy)]
struct NextTurn {
    beginning: usize,
    process: usize,
    len: u32,
}

/// The operations of each process, how many there are, and what is left to be burnt, in steps.
#[derive(Drop)]
struct TurnSearch<'a> {
    proposer: &'a Proposer<'a>,
    turn_ops: Vec<Vec<TurnOp>>,
    ops: u32,
    steps: u64,
}

impl Proposer<'_> {
    /// A schedule of long turns, where there are some at the beginning.
    pub(crate) fn complete_by_turns(&self, fuel: &mut u64) -> Option<Vec<u8>> {
        let nothing = Turns {
            schedule: Vec::new(self.alloc),
            made: self.beginning(&[])?,
            last: None,
        };
        let mut search = TurnSearch {
            proposer: self,
            turn_ops: self.turn_ops()?,
            ops: u32::try_from(nothing.made.left(self.lengths)).ok()?,
            steps: fuel.saturating_mul(TURN_STEPS_OF_FUEL),
        };
        let schedule = search.find(nothing);
        *fuel = search.steps / TURN_STEPS_OF_FUEL;
        schedule
    }

    fn turn_ops(&self) -> Option<Vec<Vec<TurnOp>>> {
        let mut turn_ops = Vec::new(self.alloc);
        for (p, count) in self.lengths.counts().iter().enumerate() {
            let ops = self.sequences.operations(p).get(..*count as usize)?;
            turn_ops
                .push(turn_ops_of(self.alloc, ops, self.initials.len())?)
                .ok()?;
        }
        Some(turn_ops)
    }
}

impl TurnSearch<'_> {
    // Adds turns to the best beginnings, until one has all operations or turns get short.
    fn find(&mut self, nothing: Turns) -> Option<Vec<u8>> {
        let mut kept = Vec::new(self.proposer.alloc);
        kept.push(nothing).ok()?;
        for number in 1..=self.ops {
            kept = self.add_turns(&kept)?;
            // Of those that are as long as the longest the first one.
            let most = kept.iter().rev().max_by_key(|turns| turns.schedule.len())?;
            let made = u32::try_from(most.schedule.len()).ok()?;
            if made == self.ops {
                return most.schedule.to_vec(self.proposer.alloc).ok();
            }
            if number >= FIRST_TURNS && made < number.saturating_mul(LEAST_TURN) {
                return None;
            }
        }
        None
    }

    // The best of all that have one turn more.
    fn add_turns(&mut self, beginnings: &[Turns]) -> Option<Vec<Turns>> {
        self.burn(u64::from(self.ops))?;
        let mut next = Vec::new(self.proposer.alloc);
        for _ in 0..=self.ops {
            next.push(Vec::new(self.proposer.alloc)).ok()?;
        }
        for (number, turns) in beginnings.iter().enumerate() {
            for process in 0..self.turn_ops.len() {
                if turns.last != Some(process) {
                    self.rate(&mut next, number, turns, process)?;
                }
            }
        }
        self.keep_best(beginnings, &next)
    }

    // Notes each turn of a process that may be added by how many operations it makes together with a turn of another after it.
    // It ends before a write, or where no more can be made.
    fn rate(
        &mut self,
        next: &mut [Vec<NextTurn>],
        beginning: usize,
        turns: &Turns,
        process: usize,
    ) -> Option<()> {
        let most = self.run(&turns.made, process)?;
        let before = u32::try_from(turns.schedule.len()).ok()?;
        self.burn(turns.made.size())?;
        let mut made = turns.made.clone().ok()?;
        for len in 1..=most {
            made.make(self.proposer.sequences, self.proposer.lengths, process)?;
            if len < most && matches!(self.next(&made, process)?, Op::R { .. }) {
                continue;
            }
            let more = self.longest_run(&made, process)?;
            let rating = before.checked_add(len)?.checked_add(more)?;
            let turn = NextTurn {
                beginning,
                process,
                len,
            };
            next.get_mut(rating as usize)?.push(turn).ok()?;
        }
        Some(())
    }

    // How many operations a process can make one after the other.
    fn run(&mut self, made: &Beginning, process: usize) -> Option<u32> {
        let from = *made.counts.get(process)?;
        let left = self.turn_ops.get(process)?.get(from as usize..)?;
        let mut len: u32 = 0;
        for turn_op in left {
            let fits = if turn_op.earlier > from {
                turn_op.follows
            } else {
                turn_op.op.finds(*made.contents.get(turn_op.op.cell())?)
            };
            if !fits {
                break;
            }
            len = len.checked_add(1)?;
        }
        self.burn(u64::from(len).saturating_add(1))?;
        Some(len)
    }

    // How many operations some other process can make.
    fn longest_run(&mut self, made: &Beginning, process: usize) -> Option<u32> {
        let mut most = 0;
        for other in 0..self.turn_ops.len() {
            if other != process {
                most = most.max(self.run(made, other)?);
            }
        }
        Some(most)
    }

    fn next(&self, made: &Beginning, process: usize) -> Option<Op> {
        let count = *made.counts.get(process)?;
        let turn_op = self.turn_ops.get(process)?.get(count as usize)?;
        Some(turn_op.op)
    }

    // Of those that are the same but for their order one is kept.
    fn keep_best(&mut self, beginnings: &[Turns], next: &[Vec<NextTurn>]) -> Option<Vec<Turns>> {
        let mut kept = Vec::new(self.proposer.alloc);
        for turn in next.iter().rev().flat_map(|turns| turns.iter()) {
            if kept.len() >= MOST_BEGINNINGS {
                break;
            }
            let turns = self.with(beginnings.get(turn.beginning)?, *turn)?;
            if !kept.iter().any(|other: &Turns| other.made == turns.made) {
                kept.push(turns).ok()?;
            }
        }
        Some(kept)
    }

    // With a turn more, and all reads that can be made then.
    fn with(&mut self, turns: &Turns, turn: NextTurn) -> Option<Turns> {
        self.burn(turns.schedule.len() as u64)?;
        let mut turns = turns.clone().ok()?;
        for _ in 0..turn.len {
            self.make(&mut turns, turn.process)?;
        }
        for process in 0..self.turn_ops.len() {
            self.make_reads(&mut turns, process)?;
        }
        turns.last = Some(turn.process);
        Some(turns)
    }

    fn make(&self, turns: &mut Turns, process: usize) -> Option<()> {
        turns.schedule.push(u8::try_from(process).ok()?).ok()?;
        turns
            .made
            .make(self.proposer.sequences, self.proposer.lengths, process)
    }

    fn make_reads(&mut self, turns: &mut Turns, process: usize) -> Option<()> {
        for _ in 0..self.run(&turns.made, process)? {
            let op = self.next(&turns.made, process)?;
            if !matches!(op, Op::R { .. }) || turns.made.contents.get(op.cell())?.is_none() {
                break;
            }
            self.make(turns, process)?;
        }
        Some(())
    }

    fn burn(&mut self, steps: u64) -> Option<()> {
        self.steps = self.steps.checked_sub(steps)?;
        Some(())
    }
}
