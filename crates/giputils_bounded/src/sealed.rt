//! The token without which order is neither folded nor unfolded.

// How it is proved: an opaque fact. Give it fold and unfold lemmas that take a value of a private
// enum, whose variant has a payload (`specs/InOrder`). Without a payload, a caller's `grind`
// constructs such a value.

// Its variant can be named within this crate alone, and its payload is what a caller's proof search would have to make
// up.
enum Own {
    Opened(u64),
}
