//! Which part of a line is shown.
ghost use Rattle.std.specs.Prelude.{◌≡◌, ◌+◌, ◌<◌, ◌≤◌};

/// So many characters of a line are shown at most.
pub(crate) const MOST: usize = 100;

/// So many of them stand before the place.
const BEFORE: usize = 40;

/// The part of a line that is shown, counted in characters from zero.
#[derive(Clone, Copy)]
pub(crate) struct Window {
    pub first: usize,
    pub end: usize,
}

/// The part of a line that is shown for a place in it, by the line's length.
pub(crate) fn window_at(length: usize, place: usize) -> Window
    ensures within { result.end ≤ length }
    ensures ordered { result.first ≤ result.end }
    ensures most { result.end ≤ result.first + 100 }
    ensures whole { length ≤ 100 → (result.first ≡ 0) × (result.end ≡ length) }
    ensures behind { place ≤ length → result.first ≤ place }
    ensures shown { place < length → place < result.end }
{
    if length <= MOST {
        return Window {
            first: 0,
            end: length,
        };
    }
    let wanted = place.saturating_sub(BEFORE);
    let last = length - MOST;
    let first = if wanted < last { wanted } else { last };
    Window {
        first,
        end: first + MOST,
    }
}
