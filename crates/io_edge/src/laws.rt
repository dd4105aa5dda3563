// The limits, by their numbers.
ghost use Rattle.std.specs.Prelude.{◌≡◌};
ghost use Rattle.io_edge.specs.declared.reading.TheConstants.{LIMIT};

/// The limits, by their numbers.
pub fn limits_law()
    // how many bytes an input may have
    ensures { LIMIT ≡ 41943040 }
{}
