//! What holds of each generated object. The function states a law; nothing is computed.
ghost use Rattle.gen_hardened.specs.Laws.{DemoIsNeverRefused};

/// The object of each number is hardened where there is memory, entered at `main` and without a policy.
pub fn demo_is_never_refused()
    ensures { DemoIsNeverRefused }
{}
