// What holds of the patterns of every compilation. The function does nothing: its contract is a law.
ghost use Rattle.ocsf_rule_laws.specs.PatternLaws.{ReadsEveryPattern};

/// Where the verdict on a bundle is clean, `regex` reads every pattern of its schema.
pub fn a_clean_bundle_has_read_patterns()
    ensures { ReadsEveryPattern }
{}
