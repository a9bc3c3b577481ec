//! What holds of every quotient and remainder. Each function states one law; nothing is computed.
ghost use Rattle.std.specs.Int.{w32, w64};
ghost use Rattle.rv_word.specs.DivideLaws.{
  DividesBack,
  LeastByMinusOne,
  QuotientByZero,
  RemainderByZero,
  RemainderIsLess,
};

/// A dividend is the quotient times the divisor, and the remainder.
#[tactic(auto, using(crate::proofs::Division::back_64, crate::proofs::Division::back_32))]
pub fn divides_back()
    ensures wide { DividesBack w64 }
    ensures narrow { DividesBack w32 }
{}

/// A remainder is smaller than the divisor, signs aside.
#[tactic(auto, using(crate::proofs::Division::less_64, crate::proofs::Division::less_32))]
pub fn remainder_is_less()
    ensures wide { RemainderIsLess w64 }
    ensures narrow { RemainderIsLess w32 }
{}

/// By 0 a quotient has all bits one, and a remainder is the dividend.
pub fn by_zero()
    ensures wide { QuotientByZero w64 }
    ensures narrow { QuotientByZero w32 }
    ensures wide_rest { RemainderByZero w64 }
    ensures narrow_rest { RemainderByZero w32 }
{}

/// The least number by -1, with signs, is the least number, and 0 remains.
pub fn least_by_minus_one()
    ensures wide { LeastByMinusOne w64 }
    ensures narrow { LeastByMinusOne w32 }
{}
