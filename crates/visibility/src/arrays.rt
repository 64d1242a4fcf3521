// Arrays that hold one value at each place. They are made by a call, since the check compares an array that is written out place by place.
ghost use Rattle.std.specs.Prelude.{◌≡◌, length, replicate};
ghost use Rattle.visibility.specs.Sets.{none, marks};

// The value x at each place.
pub(crate) fn all_of<T: Copy, const N: usize>(x: T) -> [T; N]
    ensures { result ≡ replicate N x }
{
    [x; N]
}

// No mark at any place.
pub(crate) fn no_marks<const N: usize>() -> [bool; N]
    ensures value { marks result ≡ none }
    ensures long { length result ≡ N }
{
    all_of(false)
}
