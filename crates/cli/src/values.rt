//! What a usage error says of an option whose value is out of range.

use crate::requests::{MAX_LIMIT, MOST_SECONDS};
use clap::ArgMatches;
use std::alloc::{AllocError, Global};

/// The numbers that an option takes.
struct Numbers {
    option: &'static str,
    least: u32,
    most: u32,
}

impl Numbers {
    /// Whether the word is one of these numbers.
    fn has(&self, word: &str) -> bool {
        match word.parse::<u32>() {
            Ok(number) => self.least <= number && number <= self.most,
            Err(_) => false,
        }
    }
}

const LIMIT: Numbers = Numbers {
    option: "limit",
    least: 1,
    most: MAX_LIMIT,
};

const SIMULATE: &[Numbers] = &[LIMIT];

const SERVE: &[Numbers] = &[
    Numbers {
        option: "port",
        least: 1,
        most: 65_535,
    },
    LIMIT,
    Numbers {
        option: "connections",
        least: 1,
        most: 1_000,
    },
];

const PUBLISH: &[Numbers] = &[
    Numbers {
        option: "port",
        least: 0,
        most: 65_535,
    },
    Numbers {
        option: "commands",
        least: 0,
        most: 65_535,
    },
    LIMIT,
    Numbers {
        option: "start-timeout",
        least: 1,
        most: MOST_SECONDS,
    },
    Numbers {
        option: "write-timeout",
        least: 1,
        most: MOST_SECONDS,
    },
    Numbers {
        option: "keepalive",
        least: 1,
        most: MOST_SECONDS,
    },
    Numbers {
        option: "timeout",
        least: 1,
        most: MOST_SECONDS,
    },
];

/// The text on the first of these options whose value is not one of its numbers, if there is one.
fn wrong_number(
    alloc: Global,
    options: &[Numbers],
    given: &ArgMatches<'_>,
) -> Result<Option<String>, AllocError> {
    for numbers in options {
        let Some(word) = given.get_str(numbers.option) else {
            continue;
        };
        if !numbers.has(word) {
            let text = format!(in alloc;
                "error: --{} takes {} to {}, not {word}\n\nFor more information, try '--help'.",
                numbers.option, numbers.least, numbers.most
            )?;
            return Ok(Some(text));
        }
    }
    Ok(None)
}

/// The text on an option whose value is out of range: the first with a number, and otherwise `--log`, which is the only
/// other option that takes few values.
pub(crate) fn wrong_value(alloc: Global, matches: &ArgMatches<'_>) -> Result<String, AllocError> {
    let numbers = [
        ("simulate", SIMULATE),
        ("serve", SERVE),
        ("publish", PUBLISH),
    ];
    for (subcommand, options) in numbers {
        if let Some(given) = matches.subcommand_matches(subcommand) {
            if let Some(text) = wrong_number(alloc, options, given)? {
                return Ok(text);
            }
        }
    }
    String::from_str(
        alloc,
        "error: --log takes text or json\n\nFor more information, try '--help'.",
    )
}
