// The groups of a ticket's marks: how many numbers each has.
ghost use Rattle.std.specs.Prelude.{◌≡◌, List, [], ◌∷◌, ◌++◌, ℕ};
ghost use Rattle.sale.specs.Ways.{sizes, size_of, by_group, size_word};
ghost use Rattle.sale.specs.Bounds.{Marked, Countable};

// Counts one mark more. A mark that names no group counts for none.
fn count_mark(counts: &mut [u8; 8], mark: u8)
    requires { Countable counts.old }
    ensures { (xs : List ℕ) → counts.old ≡ by_group (size_of xs) → counts.new ≡ by_group (size_of (xs ++ (mark ∷ []))) }
{
    if let 1..=8 = mark {
        counts[mark as usize - 1] += 1;
    }
}

// How many numbers each group has.
pub fn group_sizes(marks: &[u8]) -> [u8; 8]
    requires { Marked marks.now }
    ensures { result ≡ sizes marks.now }
{
    let mut counts = [0u8; 8];
    for mark in marks {
        count_mark(&mut counts, *mark);
    }
    counts
}

// The sizes of the groups in one word, that of group 1 in its lowest byte.
pub fn size_word(sizes: [u8; 8]) -> u64
    ensures { result ≡ size_word sizes }
{
    u64::from_le_bytes(sizes)
}
