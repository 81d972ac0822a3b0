//! The event of a step.

ghost use Rattle.std.specs.Prelude.{◌≡◌};
ghost use Rattle.buchi_core.specs.Forest.{is_earlier};

/// What a step does to the oldest entry that it does something to, by that entry's place before the step: the entry is
/// dropped or lost, or it turns green. `Nothing` where no old entry is touched.
#[derive(Clone, Copy, Debug, PartialEq, Eq)]
pub enum Event {
    Dies(u8),
    Green(u8),
    Nothing,
}

/// Whether the first event is earlier than the second: the lower place first, at one place the death, and no event
/// last.
pub fn earlier(a: Event, b: Event) -> bool
    ensures { result ≡ is_earlier a b }
{
    match (a, b) {
        (Event::Nothing, _) => false,
        (_, Event::Nothing) => true,
        (Event::Dies(i), Event::Green(j)) => i <= j,
        (Event::Dies(i), Event::Dies(j)) => i < j,
        (Event::Green(i), Event::Green(j)) => i < j,
        (Event::Green(i), Event::Dies(j)) => i < j,
    }
}
