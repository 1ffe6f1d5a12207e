ghost use Rattle.std.specs.Prelude.{◌≡◌, ◌<◌, ◌≤◌, MatchOption};
ghost use Rattle.pricing.specs.Limits.{whole_relief};

// The relief that takes the whole of a storage share, in ten-thousandths.
pub const WHOLE_RELIEF: u32 = 10_000;

// The part of its share that storage is relieved of, in ten-thousandths.
#[derive(Clone, Copy, PartialEq, Eq, Debug)]
pub struct Relief {
    parts: u32,
    ghost bounded: { parts ≤ whole_relief },
}

impl Relief {
    // No relief, with which a side begins.
    pub const NONE: Relief = Relief { parts: 0 };

    // The relief, or none where it is more than the whole.
    pub fn new(parts: u32) -> Option<Relief>
        ensures { MatchOption result (whole_relief < parts) (λ x. x.parts ≡ parts) }
    {
        if parts > WHOLE_RELIEF {
            None
        } else {
            Some(Relief { parts })
        }
    }

    pub fn get(self) -> u32
        ensures value { result ≡ self.parts }
        ensures bound { result ≤ whole_relief }
    {
        self.parts
    }
}
