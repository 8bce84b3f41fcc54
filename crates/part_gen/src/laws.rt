//! Laws of generated parts. The function does nothing; its contract is the law.

ghost use Rattle.std.specs.Prelude.{◌≡◌, ◌<◌, ◌≤◌, ℕ, None};
ghost use Rattle.cranelift_object.specs.EndCause.{end_cause};
ghost use Rattle.cranelift_object.specs.Part.{start_cause, first_refused, part_state, part_cause};
ghost use Rattle.part_gen.specs.Generated.{generated};

/// Nothing refuses a generated part: it can be begun, each of its commands is accepted behind those before it, and it
/// can be finished. Its object reaches no limit of the format either, so the part has no cause at all.
pub fn generated_is_valid()
    ensures start { (seed n : ℕ) → 0 < n → n ≤ 100000 → start_cause (generated seed n).settings (generated seed n).target ≡ None }
    ensures accepted { (seed n : ℕ) → 0 < n → n ≤ 100000 → first_refused (generated seed n).target (generated seed n).calls ≡ None }
    ensures finished { (seed n : ℕ) → 0 < n → n ≤ 100000 → end_cause (part_state (generated seed n)) ≡ None }
    ensures valid { (seed n : ℕ) → 0 < n → n ≤ 100000 → part_cause (generated seed n) ≡ None }
{}
