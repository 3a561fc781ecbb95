// The ranges in which the objects of a type lie, in lists that are read side by side.
ghost use Rattle.std.specs.Prelude.{◌≡◌, length};
ghost use Rattle.values.specs.Spans.{Grouped};

// The objects that a reference may name: those behind first[i] up to last[i], for each i.
#[derive(Clone, Copy)]
pub struct Ranges<'a> {
    pub first: &'a [u32],
    pub last: &'a [u32],
    pub ghost as_long: { length first.now ≡ length last.now },
}

// The ranges of all types, one type after the other: those of type t stand from starts[t] up to starts[t + 1].
#[derive(Clone, Copy)]
pub struct Groups<'a> {
    pub starts: &'a [u32],
    pub first: &'a [u32],
    pub last: &'a [u32],
    pub ghost grouped: { Grouped starts.now first.now last.now },
}
