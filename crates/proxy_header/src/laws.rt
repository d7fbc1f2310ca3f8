//! What follows from the definitions alone: each law is the contract of a function that does nothing.

ghost use Rattle.std.specs.Prelude.{◌≡◌, ℕ, List, ◌∷◌, ◌++◌, Option};
ghost use Rattle.std.specs.declared.net.ipv4_addr.Ipv4Addr.{Ipv4Addr};
ghost use Rattle.proxy_header.specs.Headers.{Begins, IsCut, IsHeader};

/// Each part of a header is taken for one, wherever it is cut.
pub fn may_be_cut_anywhere()
    ensures { (header part more : List ℕ) (byte : ℕ) (from : Option Ipv4Addr)
        → IsHeader header from → header ≡ part ++ byte ∷ more → IsCut part }
{}

/// What begins with a header isn't taken for a part of one.
pub fn is_whole_or_cut()
    ensures { (bytes : List ℕ) (from : Option Ipv4Addr) (size : ℕ) → Begins IsHeader bytes from size → IsCut bytes → ⊥ }
{}
