// How many unknowns there is room for.
ghost use Rattle.std.specs.Prelude.{◌≡◌, ◌≤◌};
ghost use Rattle.memory.specs.Capacity.{Capacity};
ghost use Rattle.memory.specs.Layout.{width};

// The words in a row, for c unknowns.
pub(super) fn row_words(c: usize) -> usize
    requires { c ≤ 512 }
    ensures { result ≡ width c }
{
    c.div_ceil(64)
}

// The largest number of unknowns for which so many cells and words have room.
pub(super) fn capacity(cells: usize, links: usize) -> usize
    ensures { Capacity cells links result }
{
    let most = cells.min(512);
    if most * row_words(most) <= links {
        return most;
    }
    // By the words of a row: at most 8 turns. By unknowns it may be 512, and LLVM vectorizes that search, which makes a short one dear.
    for w in (1..=row_words(most)).rev() {
        let c = most.min(64 * w).min(links / w);
        if c > 64 * (w - 1) {
            return c;
        }
    }
    0
}
