ghost use Rattle.std.specs.Prelude.{◌≡◌, ℕ};
ghost use Rattle.std.specs.Result.{result_map_both};

// A reason for which a call is refused.
pub trait Refusal: Copy {
    // The number of the question that was answered no; 0 for want of memory. No Option: five of the seven types of reasons
    // have no such case.
    ghost numbered: { Self → ℕ };

    fn number(self) -> u8
        ensures is_its_number { result ≡ numbered self };

    // No two reasons of one type have the same number.
    ghost numbers_differ: { (x y : Self) → numbered x ≡ numbered y → x ≡ y };
}

// What a call answered, with a refusal told by its number.
pub fn numbered<T, R: Refusal>(answer: Result<T, R>) -> Result<T, u8>
    ensures refusal_is_its_number { result ≡ result_map_both (λ t. t) R.numbered answer }
{
    answer.map_err(|refusal| refusal.number())
}
