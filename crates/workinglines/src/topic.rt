ghost use Rattle.std.specs.Prelude.{◌≡◌};
ghost use Rattle.std.specs.Result.{result_ok};
ghost use Rattle.workinglines.specs.Topics.{topic_of};

use std::str::FromStr;

// What a line is about.
#[derive(Clone, Copy, Debug, PartialEq, Eq)]
pub enum Topic {
    Cipher,
    Nonce,
    Product,
    Hash,
    Piece,
    Mask,
    Block,
    Counters,
}

// A word that names no topic.
#[derive(Clone, Copy, Debug, PartialEq, Eq)]
pub struct UnknownTopic;

// The topic that a word names, if any.
impl FromStr for Topic {
    type Err = UnknownTopic;

    ghost from_str_gives = { λ cs r. result_ok r ≡ topic_of cs };

    fn from_str(word: &str) -> Result<Topic, UnknownTopic> {
        match word {
            "cipher" => Ok(Topic::Cipher),
            "nonce" => Ok(Topic::Nonce),
            "product" => Ok(Topic::Product),
            "hash" => Ok(Topic::Hash),
            "piece" => Ok(Topic::Piece),
            "mask" => Ok(Topic::Mask),
            "block" => Ok(Topic::Block),
            "counters" => Ok(Topic::Counters),
            _ => Err(UnknownTopic),
        }
    }
}
