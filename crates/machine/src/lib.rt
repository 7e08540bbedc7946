// The linear method (section 4.10) as a machine: a list carried in a gap buffer, one look, and the run of looks.
//
// In order: the carried list; what comes of a look; on the list, a cell at a place, what a look sees, the advance and the four merges, a look, the run.
// Not here: the outcome of a look (the crate rules), and how a list comes onto the machine and a choice off it (the crate linear).
#![tactic(auto)]

ghost use Rattle.std.specs.Prelude.{◌≡◌, ◌+◌, ◌≤◌, ◌<◌};
ghost use Rattle.rules.specs.Rules.{mark};
ghost use Rattle.machine.specs.Machine.{rear_at, item_in, cell_in, right_of, Sighted, new_cell, gone_on, fused_back, fused_ahead, move_of, moved, stored, Reaches, Ready, Looked, Runnable, Ran};

use price::Rates;
use rules::{Cell, Kind, Merge, Outcome};

// The place of the rear mark, and the one before it.
pub const REAR: usize = 4097;

const LAST: usize = REAR - 1;

// The places, with the two marks.
pub const PLACES: usize = REAR + 1;

// A mark.
const MARK: Cell = Cell {
    kind: Kind::Neither,
    size: 0,
};

// The carried list: places 0 to left - 1 come before p, p stands at right, and place REAR is the rear mark.
// Arrays of kinds and of sizes, as clause 13.3 names them: one of cells would take 8 bytes for each place in place of 5.
#[derive(Clone, Copy)]
pub struct Machine {
    pub kinds: [Kind; PLACES],
    pub sizes: [u32; PLACES],
    pub left: usize,
    pub right: usize,
}

// What a look sees: p, with the one before it, the one after it and the second after it.
#[derive(Clone, Copy, Debug, PartialEq, Eq)]
pub struct Sight {
    pub before: Cell,
    pub p: Cell,
    pub after: Cell,
    pub second: Cell,
}

// What an outcome does to the list: p's place gets `stays`, then the place `at` gets `made`, and the cursor goes to `left` and `right`.
#[derive(Clone, Copy, Debug, PartialEq, Eq)]
pub struct Move {
    pub left: usize,
    pub right: usize,
    pub at: usize,
    pub made: Cell,
    pub stays: Cell,
}

// What came of a look, with the list that it was made on: its outcome, what this does to the list, and what the look counts.
#[derive(Clone, Copy)]
pub struct Step {
    pub list: Machine,
    pub outcome: Outcome,
    pub next: Move,
    pub looks: u32,
}

// The list at the end, with the number of looks.
#[derive(Clone, Copy)]
pub struct Passed {
    pub list: Machine,
    pub looks: u32,
}

// A new record of so many bytes.
fn new_cell(size: u32) -> Cell
    ensures { result ≡ new_cell size }
{
    Cell {
        kind: Kind::New,
        size,
    }
}

impl Machine {
    // The cell at a place.
    pub fn cell(&self, at: usize) -> Cell
        requires { at ≤ rear_at }
        ensures { result ≡ cell_in self.now at }
    {
        Cell {
            kind: self.kinds[at],
            size: self.sizes[at],
        }
    }

    // Another cell at a place.
    pub fn store(&mut self, at: usize, cell: Cell)
        requires { at ≤ rear_at }
        ensures { self.new ≡ stored self.old at cell }
    {
        self.kinds[at] = cell.kind;
        self.sizes[at] = cell.size;
    }

    // What a look sees: a mark where there is nothing.
    // Not inlined: then the compiler lets a look by value read the list where it lies. Inlined, each look copied the 20 KB of the list.
    #[inline(never)]
    fn sight(&self) -> Sight
        requires { (self.now.right < rear_at) × (self.now.left ≤ self.now.right) × (item_in self.now rear_at ≡ mark) }
        ensures { Sighted self.now result }
    {
        let before = if 0 < self.left {
            self.cell(self.left - 1)
        } else {
            MARK
        };
        let second = if self.right < LAST {
            self.cell(self.right + 2)
        } else {
            MARK
        };
        let p = self.cell(self.right);
        let after = self.cell(self.right + 1);
        Sight {
            before,
            p,
            after,
            second,
        }
    }

    // p goes to the one after.
    fn gone_on(&self, p: Cell) -> Move
        requires { (self.now.left ≤ self.now.right) × (self.now.right < rear_at) }
        ensures { result ≡ gone_on self.now.left self.now.right p }
    {
        Move {
            left: self.left + 1,
            right: self.right + 1,
            at: self.left,
            made: p,
            stays: p,
        }
    }

    // The one before p becomes a new record of `size` bytes, and p goes `count` on.
    fn fused_back(&self, p: Cell, size: u32, count: usize) -> Move
        requires { (0 < self.now.left) × (self.now.right + count ≤ rear_at) }
        ensures { result ≡ fused_back self.now.left self.now.right p (new_cell size) count }
    {
        Move {
            left: self.left,
            right: self.right + count,
            at: self.left - 1,
            made: new_cell(size),
            stays: p,
        }
    }

    // p and the one after it become a new record of `size` bytes, and p goes to the one before.
    fn fused_ahead(&self, before: Cell, size: u32) -> Move
        requires { (0 < self.now.left) × (self.now.right + 1 < rear_at) }
        ensures { result ≡ fused_ahead self.now.left self.now.right before (new_cell size) }
    {
        Move {
            left: self.left - 1,
            right: self.right,
            at: self.right + 1,
            made: new_cell(size),
            stays: before,
        }
    }

    // What an outcome does to the list: a merge makes a new record of the bytes that it fuses.
    fn move_of(&self, sight: Sight, outcome: Outcome) -> Move
        requires { Reaches self.now.left self.now.right outcome }
        ensures { result ≡ move_of self.now.left self.now.right sight.before sight.p outcome }
    {
        match outcome {
            Outcome::Advance => self.gone_on(sight.p),
            Outcome::Merged(Merge::Both(size)) => self.fused_back(sight.p, size, 2),
            Outcome::Merged(Merge::Before(size)) => self.fused_back(sight.p, size, 1),
            Outcome::Merged(Merge::After(size) | Merge::Pair(size)) => self.fused_ahead(
                sight.before,
                size,
            ),
        }
    }

    // One look at p: its outcome, by what it sees on the list.
    // By value, and handed on in the step, as clause 13.3 asks.
    fn look(self, rates: Rates) -> Step
        requires { Ready rates self }
        ensures { Looked rates self result }
    {
        let sight = self.sight();
        let outcome = rules::outcome_at(rates, sight.before, sight.p, sight.after, sight.second);
        let next = self.move_of(sight, outcome);
        Step {
            list: self,
            outcome,
            next,
            looks: 1,
        }
    }

    // A move carried out on the list.
    fn carry_out(&mut self, next: Move)
        requires { (self.old.right < rear_at) × (next.at < rear_at) }
        ensures { self.new ≡ moved self.old next }
    {
        self.store(self.right, next.stays);
        self.store(next.at, next.made);
        self.left = next.left;
        self.right = next.right;
    }

    // Looks until p is the rear, carries out the outcome of each look on the list, and counts the looks.
    pub fn look_through(&mut self, rates: Rates) -> u32
        requires { Runnable rates self.old }
        ensures { Ran rates (right_of self.old) (record { list = self.new; looks = result }) }
    {
        let mut looks: u32 = 0;
        while self.right < REAR {
            let step = self.look(rates);
            *self = step.list;
            self.carry_out(step.next);
            looks += step.looks;
        }
        looks
    }

    // The same of a list that is handed over. No call makes it, but it is public, and promises so.
    pub fn run(mut self, rates: Rates) -> Passed
        requires { Runnable rates self }
        ensures { Ran rates (right_of self) result }
    {
        let looks = self.look_through(rates);
        Passed { list: self, looks }
    }
}
