// The plan of own reports: r reports in a frame of 2250 slots, from the start slot s on. It goes in whole and comes back changed. Promises:
// nominal slots and windows are those of specs/Plan.antt, in whole numbers, with no step that is added up; `window_of` tells of each slot
// the one window that it lies in, or that there is none. specs/Promises.antt has the gaps, and that windows keep apart as demand 3 asks.
#![tactic(auto)]

ghost use Rattle.std.specs.Prelude.{◌≡◌, ◌<◌, T, ◌↔◌};
ghost use Rattle.limits.specs.Limits.{frame_slots};
ghost use Rattle.plan.specs.Plan.{InRange, nominal, half, first, slots, InWindow, Tells};

const FRAME: u16 = limits::FRAME as u16;

const TENTH: u16 = limits::TENTH as u16;

const MOST_RATE: u16 = limits::MOST_RATE as u16;

// Any rate and start can stand here; a plan out of its range counts as none. Methods ask for one in its range each by itself, since they are called on what
// is set: a type of such plans alone would ask more of their callers.
#[derive(Clone, Copy)]
pub struct Plan {
    pub rate: u16,
    pub start: u16,
}

impl Plan {
    // No plan: no window.
    pub fn none() -> Self
        ensures { (result.rate ≡ 0) × (result.start ≡ 0) }
    {
        Self { rate: 0, start: 0 }
    }

    // The plan with another rate and start. What it was does not matter; the method is public and stays.
    pub fn changed(self, rate: u16, start: u16) -> Self
        ensures { (result.rate ≡ rate) × (result.start ≡ start) }
    {
        Self { rate, start }
    }

    // Whether the plan is in its range.
    pub fn good(self) -> bool
        ensures { T result ↔ InRange self }
    {
        (1..=MOST_RATE).contains(&self.rate) && self.start < FRAME
    }

    // The nominal slot k. 2250 * 29 still fits 16 bits.
    #[tactic(auto, unfolding(crate::specs::Plan::nominal, crate::specs::Plan::along))]
    pub fn nominal(self, k: u16) -> u16
        requires { InRange self × (k < self.rate) }
        ensures { result ≡ nominal self k }
    {
        (self.start + FRAME * k / self.rate) % FRAME
    }

    // How far a window reaches to each side of its nominal slot.
    #[tactic(auto, unfolding(crate::specs::Plan::half))]
    pub fn half(self) -> u16
        requires { InRange self }
        ensures { result ≡ half self }
    {
        TENTH / self.rate
    }

    // The number of slots of a window.
    #[tactic(auto, unfolding(crate::specs::Plan::slots))]
    pub fn slots(self) -> u16
        requires { InRange self }
        ensures { result ≡ slots self }
    {
        2 * self.half() + 1
    }

    // The first slot of the window of k.
    #[tactic(auto, unfolding(crate::specs::Plan::first))]
    pub fn first(self, k: u16) -> u16
        requires { InRange self × (k < self.rate) }
        ensures { result ≡ first self k }
    {
        (self.nominal(k) + FRAME - self.half()) % FRAME
    }

    // Whether a slot is one of the window of k.
    #[tactic(auto, using(crate::proofs::Gaps::first_below))]
    fn covers(self, k: u16, slot: u16) -> bool
        requires { InRange self × (k < self.rate) × (slot < frame_slots) }
        ensures { T result ↔ InWindow self k slot }
    {
        (slot + FRAME - self.first(k)) % FRAME < self.slots()
    }

    // The window that a slot lies in, if it lies in one. It goes through the windows, at most 30: a quotient would have to be corrected for
    // its rounding.
    pub fn window_of(self, slot: u16) -> Option<u16>
        requires { InRange self × (slot < frame_slots) }
        ensures { Tells self slot result }
    {
        (0..self.rate).find(|k| self.covers(*k, slot))
    }
}
