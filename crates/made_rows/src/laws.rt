// What holds of every made input.
ghost use Rattle.std.specs.Prelude.{◌≡◌, ◌≤◌, ℕ, [], ◌∷◌, Ok, Some};
ghost use Rattle.csv_rows.specs.Rows.{rows_of};
ghost use Rattle.direct_meaning.specs.Inputs.{AreInputs};
ghost use Rattle.made_rows.specs.Means.{MeansSums};
ghost use Rattle.made_rows.specs.Rows.{made_rows, made_text, most_made};
ghost use Rattle.made_rows.specs.Sums.{row_type, sums_script};
ghost use Rattle.direct_meaning.specs.of_script_laws.WellFormed.{IsWellFormed};

use csv_rows::rows_law;

/// The text of a made input has its rows, which are an input of the script of the sums.
pub fn made_rows_law()
    ensures decoded { (start rows : ℕ) → start ≤ most_made → rows ≤ most_made →
        rows_of (made_text start rows) row_type ≡ Some (Ok (made_rows start rows)) }
    ensures inputs { (start rows : ℕ) → start ≤ most_made → rows ≤ most_made →
        AreInputs sums_script (made_rows start rows ∷ []) }
{
    rows_law();
}

/// The script of the sums is well formed. Over the rows of a made input it means the sum of the
/// numbers of each key, and none of its calls traps.
pub fn sums_law()
    ensures well_formed { IsWellFormed sums_script }
    ensures means { (start rows : ℕ) → start ≤ most_made → rows ≤ most_made →
        MeansSums start rows }
{}
