// What holds of JSON texts.
ghost use Rattle.std.specs.Prelude.{◌≡◌, ℕ, List, IsUtf8};
ghost use Rattle.serde_json.specs.Data.{string};
ghost use Rattle.plan_json.specs.PlanJson.{text_json};

/// A text in UTF-8 stands in JSON as it is.
pub fn utf8_law()
    ensures { (text : List ℕ) → IsUtf8 text → text_json text ≡ string text }
{}
