// Worked cases of a station, shown of the definitions that the writer's promises name.
#![tactic(auto)]

ghost use Rattle.std.specs.Prelude.{◌≡◌, length};
ghost use Rattle.station.specs.Cases.{table, StationCases};

// The number of the worked cases: a full tip, a packet behind it, late packets across and below the tip's
// start, a cut and a gap, a resize to the size, a cut inside the tip, a long sparse packet, empty reads.
pub fn station_cases() -> usize
    ensures count { result ≡ length table }
    ensures shown { StationCases }
{
    9
}

#[cfg(test)]
mod lines;
#[cfg(test)]
mod runs;
