//! How the elements of a slice move over.
ghost use Rattle.std.specs.Prelude.{◌≡◌, ◌<◌, ◌≤◌, ◌+◌, length};
ghost use Rattle.tb_machine_screen.specs.Shifting as shifting;

// Sets the elements from one place to another.
fn fill<T: Copy>(elements: &mut [T], from: usize, to: usize, filler: T)
    requires order { from ≤ to }
    requires within { to ≤ length elements.old }
    ensures { elements.new ≡ shifting.filled from to filler elements.old }
{
    for i in from..to {
        elements[i] = filler;
    }
}

/// Moves all elements to the front, over the first `count`; this filler comes at the end.
pub fn scroll<T: Copy>(elements: &mut [T], count: usize, filler: T)
    requires { count ≤ length elements.old }
    ensures { elements.new ≡ shifting.scrolled count filler elements.old }
{
    let kept = elements.len() - count;
    elements.rotate_left(count);
    fill(elements, kept, kept + count, filler);
}

/// Moves the elements from `at` on to the back by `count`; this filler comes between.
pub fn open<T: Copy>(elements: &mut [T], at: usize, count: usize, filler: T)
    requires { at + count ≤ length elements.old }
    ensures { elements.new ≡ shifting.opened at count filler elements.old }
{
    elements.copy_within(at..elements.len() - count, at + count);
    fill(elements, at, at + count, filler);
}

/// Moves the elements after `at`, up to `end`, over the one at `at`; this filler comes at `end`.
pub fn pull<T: Copy>(elements: &mut [T], at: usize, end: usize, filler: T)
    requires order { at ≤ end }
    requires within { end < length elements.old }
    ensures { elements.new ≡ shifting.pulled at end filler elements.old }
{
    elements.copy_within(at + 1..end + 1, at);
    elements[end] = filler;
}

/// Moves the elements from `at` on over the one at `end`; this filler comes at `at`.
pub fn push<T: Copy>(elements: &mut [T], at: usize, end: usize, filler: T)
    requires order { at ≤ end }
    requires within { end < length elements.old }
    ensures { elements.new ≡ shifting.pushed at end filler elements.old }
{
    elements.copy_within(at..end, at + 1);
    elements[at] = filler;
}
