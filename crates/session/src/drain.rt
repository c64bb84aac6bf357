// Drain: its steps one after another, by its rule, until none is pending.
ghost use Rattle.std.specs.Prelude.{◌<◌, length, ◌≡◌};
ghost use Rattle.flat.specs.Inner.FlatEvents.{flat_drain_step};
ghost use Rattle.state.specs.Inner.State.{flat_in};
ghost use Rattle.state.specs.Inner.ValidImage.{ValidImage};
ghost use Rattle.session.specs.Inner.DrainStep.{Begins, DrainsOne, raised_counts};
ghost use Rattle.session.specs.Inner.Drained.{Drains};

use calls::admit::admit;
use graph::task::Sought;
use headsteps::{act_at, finish_at, first_for, move_unit};
use state::ops;

// The admits, realises, moves and finishes that were taken.
#[derive(Clone, Copy, Debug, PartialEq, Eq)]
pub struct Counts {
    pub admit: u32,
    pub realise: u32,
    pub moved: u32,
    pub finish: u32,
}

// The kind of a step that drain took.
#[derive(Clone, Copy, Debug, PartialEq, Eq)]
pub enum StepTaken {
    Admit,
    Realise,
    Move,
    Finish,
}

// The step of drain at the station of the queue's first operation, whose head unit begins the queue.
fn drain_at(image: &mut [u8], k: u8) -> StepTaken
    requires { (ValidImage image.old) × (Begins image.old k) }
    ensures { DrainsOne (flat_drain_step (flat_in image.old)) image.new result }
{
    let e = ops::unit_end(image, k, 0);
    let p = first_for(image, Sought::Acts, k, 0, e);
    if p < e {
        act_at(image, k, p);
        return StepTaken::Realise;
    }
    let q = first_for(image, Sought::Finishes, k, 0, e);
    if q < e {
        finish_at(image, q, e);
        return StepTaken::Finish;
    }
    move_unit(image, k, 0, e);
    StepTaken::Move
}

// One step by drain's rule, where a call is pending.
fn drain_one(image: &mut [u8]) -> StepTaken
    requires { (ValidImage image.old) × (0 < length (flat_in image.old).queue) }
    ensures { DrainsOne (flat_drain_step (flat_in image.old)) image.new result }
{
    let k = ops::place_at(image, 0);
    if k == 65 {
        admit(image).unwrap();
        return StepTaken::Admit;
    }
    drain_at(image, k)
}

impl Counts {
    // One more of this kind.
    fn raise(&mut self, taken: StepTaken)
        requires { (self.old.admit < 4294967295) × (self.old.realise < 4294967295) × (self.old.moved < 4294967295) × (self.old.finish < 4294967295) }
        ensures { self.new ≡ raised_counts self.old taken }
    {
        match taken {
            StepTaken::Admit => self.admit += 1,
            StepTaken::Realise => self.realise += 1,
            StepTaken::Move => self.moved += 1,
            StepTaken::Finish => self.finish += 1,
        }
    }
}

// Takes drain's steps until none is pending, and says how many of each kind they were.
pub fn drain(image: &mut [u8]) -> Counts
    requires { ValidImage image.old }
    ensures { Drains image.old image.new result }
{
    let mut c = Counts {
        admit: 0,
        realise: 0,
        moved: 0,
        finish: 0,
    };
    while ops::total(image) != 0 {
        let taken = drain_one(image);
        c.raise(taken);
    }
    c
}
