// Laws of shares: each function has no body, and its contract is the law.
ghost use Rattle.std.specs.Prelude.{◌≡◌, ℕ, ◌++◌, List, length, map, slice_get, slice_index, Some};
ghost use Rattle.scatter.specs.Shares.{of_home, share_of, rank_of};

/// The shares of a list, in the order of its homes, hold all of it: two lists with the same shares are one (`one`). An item
/// stands in the share of its home at its rank (`at`), and the share of a home has as many items as the home has (`count`).
/// Two lists one behind the other share as they do (`both`).
pub fn shares_hold_all<T>()
    ensures one { (homes : List ℕ) (xs : List T) (ys : List T) → length xs ≡ length homes → length ys ≡ length homes
        → ((k : ℕ) → of_home homes k xs ≡ of_home homes k ys) → xs ≡ ys }
    ensures at { (homes : List ℕ) (xs : List T) (i : ℕ) (h : ℕ) (x : T) → slice_get xs i ≡ Some x → slice_get homes i ≡ Some h
        → slice_get (of_home homes h xs) (rank_of homes i) ≡ Some x }
    ensures count { (homes : List ℕ) (xs : List T) (k : ℕ) → length xs ≡ length homes → length (of_home homes k xs) ≡ share_of k homes }
    ensures both { (homes : List ℕ) (more : List ℕ) (xs : List T) (ys : List T) (k : ℕ) → length xs ≡ length homes
        → of_home (homes ++ more) k (xs ++ ys) ≡ of_home homes k xs ++ of_home more k ys }
{}
