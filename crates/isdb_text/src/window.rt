// A window on the input: the bytes read and not yet used up stand at its front.
ghost use Rattle.isdb_text.specs.Text.{Wrote};
ghost use Rattle.isdb_text.specs.Window.{left_of};

// Moves what lies from at to end to the front, and answers how much that is.
pub fn to_front(window: &mut [u8], at: usize, end: usize) -> usize
    ensures { Wrote window.old 0 (left_of window.old at end) window.new result }
{
    let end = end.min(window.len());
    let at = at.min(end);
    window.copy_within(at..end, 0);
    end - at
}
