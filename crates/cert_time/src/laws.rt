ghost use Rattle.std.specs.Prelude.{◌≡◌, ◌≤◌, ℕ, ℤ, pos, List};
ghost use Rattle.cert_time.specs.Time.{tag_of, text_of, time_of, IsTimeText};

/// The Time that is written of a moment is read again, to the moment and no other; and what is read of two texts is one
/// number only where they are the same.
pub fn times_are_read_again()
    ensures written { (moment : ℕ) → moment ≤ 253402300799 → IsTimeText (tag_of (time_of moment)) (text_of (time_of moment)) (pos moment) }
    ensures one_number { (tag : ℕ) (content : List ℕ) (seconds other : ℤ) →
        IsTimeText tag content seconds → IsTimeText tag content other → seconds ≡ other }
    ensures one_text { (tag tag' : ℕ) (content content' : List ℕ) (seconds : ℤ) →
        IsTimeText tag content seconds → IsTimeText tag' content' seconds → (tag ≡ tag') × (content ≡ content') }
{}
