ghost use Rattle.std.specs.Prelude.{◌≡◌, ◌<◌, ℕ, Option, Some, slice_get};
ghost use Rattle.std.specs.List.{filter_map};
ghost use Rattle.least.specs.declared.place.Found.{Found};
ghost use Rattle.least.specs.Nearest.{is_before, nearer, nearest, nearest_below};

/// A place: the index of a section, and an offset in it.
#[derive(Clone, Copy, PartialEq, Eq)]
pub struct Place {
    pub section: u32,
    pub offset: u64,
}

impl Place {
    /// Whether this place is before another one: in a lesser section, or in the same at a lesser offset.
    pub fn is_before(self, other: Place) -> bool
        ensures { result ≡ is_before self other }
    {
        self.section < other.section || self.section == other.section && self.offset < other.offset
    }
}

/// What was found at a place.
#[derive(Clone, Copy)]
pub struct Found<T> {
    pub place: Place,
    pub what: T,
}

/// The nearer of two findings, of those that there are; at one place it is the first.
pub fn nearer<T: Copy>(a: Option<Found<T>>, b: Option<Found<T>>) -> Option<Found<T>>
    ensures { result ≡ nearer (λ f. f.place) a b }
{
    match (a, b) {
        (None, other) => other,
        (Some(a), None) => Some(a),
        (Some(a), Some(b)) => Some(if b.place.is_before(a.place) { b } else { a }),
    }
}

/// The nearest of what a function finds for the indexes below `n`.
pub fn nearest_below<T: Copy, F: Fn(u32) -> Option<Found<T>>>(n: u32, given: F) -> Option<Found<T>>
    requires { (k : ℕ) → k < n → F.pre given k }
    ensures { (g : ℕ → Option (Found T)) → ((k : ℕ) (one : Option (Found T)) → k < n → F.post given k one → one ≡ g k)
        → result ≡ nearest_below (λ f. f.place) g n }
{
    let mut least = None;
    for index in 0..n {
        least = nearer(least, given(index));
    }
    least
}

/// The nearest of what a function finds for the members of a list.
pub fn nearest<X: Copy, T: Copy, F: Fn(X) -> Option<Found<T>>>(
    items: &[X],
    given: F,
) -> Option<Found<T>>
    requires { F.IsAlwaysCallable given }
    ensures { (g : X → Option (Found T))
        → ((k : ℕ) (x : X) (one : Option (Found T)) → slice_get items.now k ≡ Some x → F.post given x one → one ≡ g x)
        → result ≡ nearest (λ f. f.place) (filter_map g items.now) }
{
    let mut least = None;
    for x in items {
        least = nearer(least, given(*x));
    }
    least
}
