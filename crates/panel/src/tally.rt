// The panel's tally: a count for each of the eight step kinds, resting at 4,294,967,295.
ghost use Rattle.std.specs.Prelude.{◌≡◌};
ghost use Rattle.panel.specs.Tally.{raised_at, raised};

// The counts stand in the order of their kinds' places, 0 to 7.
#[repr(C)]
#[derive(Clone, Copy)]
pub struct Tally {
    pub admit: u32,
    pub realise: u32,
    pub move_on: u32,
    pub finish: u32,
    pub join: u32,
    pub split: u32,
    pub swap: u32,
    pub fuse: u32,
}

// What stands at the place `own` after the count at `place` was raised.
fn raised_at(own: u8, place: u8, count: u32, by: u32) -> u32
    ensures { result ≡ raised_at place by own count }
{
    if own == place {
        count.saturating_add(by)
    } else {
        count
    }
}

impl Tally {
    // The count at a place raised by a number. Any place past the eight raises none.
    pub fn raised(self, place: u8, by: u32) -> Self
        ensures { result ≡ raised self place by }
    {
        Tally {
            admit: raised_at(0, place, self.admit, by),
            realise: raised_at(1, place, self.realise, by),
            move_on: raised_at(2, place, self.move_on, by),
            finish: raised_at(3, place, self.finish, by),
            join: raised_at(4, place, self.join, by),
            split: raised_at(5, place, self.split, by),
            swap: raised_at(6, place, self.swap, by),
            fuse: raised_at(7, place, self.fuse, by),
        }
    }
}

// One more at a place of the tally that the panel lends.
pub fn raise(t: &mut Tally, place: u8)
    ensures { t.new ≡ raised t.old place 1 }
{
    *t = t.raised(place, 1);
}
