ghost use Rattle.std.specs.Prelude.{◌≡◌, option_map};
ghost use Rattle.clap.specs.Matches.{found_of};
ghost use Rattle.clap.specs.Walk.{rows_of};
ghost use Rattle.cover_words.specs.Values.{flag_at, number_at, scale_at, text_at};

use clap::ArgMatches;

/// The text of the argument.
pub fn text_in<'a>(matches: &ArgMatches<'a>, id: &str) -> Option<&'a str>
    ensures { option_map (λ s. s.now) result ≡ text_at id.now (rows_of (found_of matches.now)) }
{
    matches.get_str(id)
}

/// The number of 32 bits of the argument.
pub fn number_in(matches: &ArgMatches, id: &str) -> Option<u32>
    ensures { result ≡ number_at id.now (rows_of (found_of matches.now)) }
{
    matches.get_one::<u32>(id)
}

/// The scale, if there is one.
pub fn scale_in(matches: &ArgMatches) -> Option<u8>
    ensures { result ≡ scale_at (rows_of (found_of matches.now)) }
{
    matches.get_one::<u8>("scale")
}

/// Whether the flag is there.
pub fn flag_in(matches: &ArgMatches, id: &str) -> Option<bool>
    ensures { result ≡ flag_at id.now (rows_of (found_of matches.now)) }
{
    matches.get_one::<bool>(id)
}
