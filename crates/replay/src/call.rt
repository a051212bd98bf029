// The calls that a case may name, in the order of a tally.
ghost use Rattle.std.specs.Prelude.{◌≡◌, ◌≢◌, Some, MatchResult};
ghost use Rattle.replay.specs.Call.{name_of};
ghost use Rattle.replay.specs.Takes.{takes};
ghost use Rattle.replay.specs.declared.call.Call.{Call as AnyCall};
ghost use Rattle.replay.specs.declared.case.CaseError.TheVariants.{NotUnderstood};

use crate::answers::Answers;
use crate::case::CaseError;
use crate::code::{Code, Shape};
use crate::fields::Fields;
use crate::frame_decodings::{
    decode_bits, decode_bits_prior, decode_bits_prior_at, decode_bits_prior_fb,
    decode_bits_prior_with,
};
use crate::given::read_symbols;
use crate::lending::{
    SentFrame, code_and_changed_word, code_and_preferences, damaged, sent_and_limits,
    sent_and_posteriors,
};
use crate::{code_calls, field_calls, frame_calls, graph_calls, rate_calls};
use std::alloc::Global;
use std::fmt;
use std::str::FromStr;

#[derive(Clone, Copy, PartialEq, Eq, PartialOrd, Ord)]
pub enum Call {
    Mul,
    Inv,
    Draws,
    EvenDegrees,
    New,
    Encode,
    InfoOf,
    ChecksOk,
    Degree,
    K,
    N,
    InfoPositions,
    PeelPicks,
    WithPeeledInfo,
    DecodeSoft,
    Decode,
    ListDecode,
    NFor,
    DegreesFor,
    CodeAt,
    Spread,
    BitsToSyms,
    EncodeBitsAt,
    EncodeBitsWith,
    EncodeBits,
    DecodeBitsPriorAt,
    DecodeBitsPriorFb,
    DecodeBitsPriorWith,
    DecodeBitsPrior,
    DecodeBits,
}

impl FromStr for Call {
    type Err = CaseError;

    ghost from_str_gives = { λ word r. MatchResult r (λ call. name_of call ≡ word) (λ e. (e ≡ NotUnderstood) × ((call : AnyCall) → name_of call ≢ word)) };

    fn from_str(word: &str) -> Result<Call, CaseError> {
        match word {
            "mul" => Ok(Call::Mul),
            "inv" => Ok(Call::Inv),
            "draws" => Ok(Call::Draws),
            "even_degrees" => Ok(Call::EvenDegrees),
            "new" => Ok(Call::New),
            "encode" => Ok(Call::Encode),
            "info_of" => Ok(Call::InfoOf),
            "checks_ok" => Ok(Call::ChecksOk),
            "degree" => Ok(Call::Degree),
            "k" => Ok(Call::K),
            "n" => Ok(Call::N),
            "info_positions" => Ok(Call::InfoPositions),
            "peel_picks" => Ok(Call::PeelPicks),
            "with_peeled_info" => Ok(Call::WithPeeledInfo),
            "decode_soft" => Ok(Call::DecodeSoft),
            "decode" => Ok(Call::Decode),
            "list_decode" => Ok(Call::ListDecode),
            "n_for" => Ok(Call::NFor),
            "degrees_for" => Ok(Call::DegreesFor),
            "code_at" => Ok(Call::CodeAt),
            "spread" => Ok(Call::Spread),
            "bits_to_syms" => Ok(Call::BitsToSyms),
            "encode_bits_at" => Ok(Call::EncodeBitsAt),
            "encode_bits_with" => Ok(Call::EncodeBitsWith),
            "encode_bits" => Ok(Call::EncodeBits),
            "decode_bits_prior_at" => Ok(Call::DecodeBitsPriorAt),
            "decode_bits_prior_fb" => Ok(Call::DecodeBitsPriorFb),
            "decode_bits_prior_with" => Ok(Call::DecodeBitsPriorWith),
            "decode_bits_prior" => Ok(Call::DecodeBitsPrior),
            "decode_bits" => Ok(Call::DecodeBits),
            _ => Err(CaseError::NotUnderstood),
        }
    }
}

impl fmt::Display for Call {
    ghost output = { λ call. Some (name_of call) };

    fn fmt<W: fmt::Write>(&self, f: &mut fmt::Formatter<W>) -> fmt::Result {
        f.write_str(match self {
            Call::Mul => "mul",
            Call::Inv => "inv",
            Call::Draws => "draws",
            Call::EvenDegrees => "even_degrees",
            Call::New => "new",
            Call::Encode => "encode",
            Call::InfoOf => "info_of",
            Call::ChecksOk => "checks_ok",
            Call::Degree => "degree",
            Call::K => "k",
            Call::N => "n",
            Call::InfoPositions => "info_positions",
            Call::PeelPicks => "peel_picks",
            Call::WithPeeledInfo => "with_peeled_info",
            Call::DecodeSoft => "decode_soft",
            Call::Decode => "decode",
            Call::ListDecode => "list_decode",
            Call::NFor => "n_for",
            Call::DegreesFor => "degrees_for",
            Call::CodeAt => "code_at",
            Call::Spread => "spread",
            Call::BitsToSyms => "bits_to_syms",
            Call::EncodeBitsAt => "encode_bits_at",
            Call::EncodeBitsWith => "encode_bits_with",
            Call::EncodeBits => "encode_bits",
            Call::DecodeBitsPriorAt => "decode_bits_prior_at",
            Call::DecodeBitsPriorFb => "decode_bits_prior_fb",
            Call::DecodeBitsPriorWith => "decode_bits_prior_with",
            Call::DecodeBitsPrior => "decode_bits_prior",
            Call::DecodeBits => "decode_bits",
        })
    }
}

impl Call {
    // Whether a case of this call has so many numbers: its arguments and then its answers. `draws` has as many answers as it has draws, at most 16.
    pub fn takes(self, count: usize) -> bool
        ensures { result ≡ takes self count }
    {
        match self {
            Call::Draws => 3 <= count && count <= 18,
            Call::Inv | Call::Spread => count == 2,
            Call::Mul | Call::NFor => count == 3,
            Call::EvenDegrees | Call::DegreesFor => count == 4,
            Call::BitsToSyms | Call::EncodeBits => count == 6,
            Call::EncodeBitsWith => count == 7,
            Call::EncodeBitsAt => count == 8,
            Call::DecodeBits => count == 10,
            Call::K | Call::N => count == 11,
            Call::Degree | Call::InfoPositions => count == 12,
            Call::Encode | Call::PeelPicks | Call::CodeAt => count == 14,
            Call::ChecksOk | Call::DecodeBitsPrior => count == 16,
            Call::InfoOf | Call::WithPeeledInfo | Call::DecodeBitsPriorWith => count == 17,
            Call::New | Call::Decode | Call::DecodeBitsPriorFb => count == 18,
            Call::DecodeSoft | Call::DecodeBitsPriorAt => count == 19,
            Call::ListDecode => count == 22,
        }
    }

    // The arguments are taken from the fields.
    pub fn answers(self, alloc: Global, fields: &mut Fields<'_>) -> Result<Answers, CaseError> {
        match self {
            Call::Mul => field_calls::mul(alloc, fields),
            Call::Inv => field_calls::inv(alloc, fields),
            Call::Draws => field_calls::draws(alloc, fields),
            Call::EvenDegrees => graph_calls::even_degrees(alloc, fields),
            Call::New => graph_calls::new(alloc, fields),
            Call::Encode => {
                let code = damaged(alloc, fields)?;
                let symbols = read_symbols(alloc, fields)?;
                Ok(code_calls::encode(alloc, &code, &symbols)?)
            }
            Call::InfoOf => {
                let (code, word) = code_and_changed_word(alloc, fields)?;
                Ok(code_calls::info_of(alloc, &code, &word)?)
            }
            Call::ChecksOk => {
                let (code, word) = code_and_changed_word(alloc, fields)?;
                Ok(code_calls::checks_ok(alloc, &code, &word)?)
            }
            Call::Degree => {
                let code = damaged(alloc, fields)?;
                Ok(code_calls::degree(alloc, &code, fields.number()?)?)
            }
            Call::K => Ok(code_calls::k(alloc, &damaged(alloc, fields)?)?),
            Call::N => Ok(code_calls::n(alloc, &damaged(alloc, fields)?)?),
            Call::InfoPositions => {
                let code = damaged(alloc, fields)?;
                Ok(code_calls::info_positions(alloc, &code)?)
            }
            Call::PeelPicks => {
                let (code, prefer) = code_and_preferences(alloc, fields)?;
                Ok(code_calls::peel_picks(alloc, &code, &prefer)?)
            }
            Call::WithPeeledInfo => {
                let (code, prefer) = code_and_preferences(alloc, fields)?;
                Ok(code_calls::with_peeled_info(alloc, code, &prefer)?)
            }
            Call::DecodeSoft => {
                let (sent, known, limit) = sent_and_limits(alloc, fields)?;
                Ok(code_calls::decode_soft(alloc, &sent, known, limit)?)
            }
            Call::Decode => {
                let (sent, known, limit) = sent_and_limits(alloc, fields)?;
                Ok(code_calls::decode(alloc, &sent, known, limit)?)
            }
            Call::ListDecode => {
                let (sent, posteriors, width) = sent_and_posteriors(alloc, fields)?;
                Ok(code_calls::list_decode(alloc, &sent, &posteriors, width)?)
            }
            Call::NFor => Ok(rate_calls::n_for(alloc, fields.number()?)?),
            Call::DegreesFor => {
                let rate = fields.number()?;
                Ok(rate_calls::degrees_for(alloc, rate, fields.count()?)?)
            }
            Call::CodeAt => {
                let rate = fields.number()?;
                let set = fields.number()?;
                let code = Code::blank(alloc, Shape::NONE)?;
                Ok(rate_calls::code_at(alloc, code, rate, set)?)
            }
            Call::Spread => {
                let i = fields.between(0, 259)? as usize;
                Ok(frame_calls::spread(alloc, i)?)
            }
            Call::BitsToSyms => {
                let bits = read_symbols(alloc, fields)?;
                Ok(frame_calls::bits_to_syms(alloc, &bits, fields.count()?)?)
            }
            Call::EncodeBitsAt => {
                let rate = fields.number()?;
                let layout = fields.number()?;
                let bits = read_symbols(alloc, fields)?;
                let room = fields.count()?;
                Ok(frame_calls::encode_bits_at(alloc, rate, layout, &bits, room)?)
            }
            Call::EncodeBitsWith => {
                let layout = fields.number()?;
                let bits = read_symbols(alloc, fields)?;
                let room = fields.count()?;
                Ok(frame_calls::encode_bits_with(alloc, layout, &bits, room)?)
            }
            Call::EncodeBits => {
                let bits = read_symbols(alloc, fields)?;
                Ok(frame_calls::encode_bits(alloc, &bits, fields.count()?)?)
            }
            Call::DecodeBitsPriorAt => {
                let sent = SentFrame::read(alloc, fields)?;
                let rate = fields.number()?;
                let layout = fields.number()?;
                let prior = sent.prior(alloc, fields)?;
                let fallback = fields.number()?;
                let metrics = &sent.metrics;
                Ok(decode_bits_prior_at(alloc, rate, layout, metrics, &prior, fallback)?)
            }
            Call::DecodeBitsPriorFb => {
                let sent = SentFrame::read(alloc, fields)?;
                let layout = fields.number()?;
                let prior = sent.prior(alloc, fields)?;
                let fallback = fields.number()?;
                Ok(decode_bits_prior_fb(alloc, layout, &sent.metrics, &prior, fallback)?)
            }
            Call::DecodeBitsPriorWith => {
                let sent = SentFrame::read(alloc, fields)?;
                let layout = fields.number()?;
                let prior = sent.prior(alloc, fields)?;
                Ok(decode_bits_prior_with(alloc, layout, &sent.metrics, &prior)?)
            }
            Call::DecodeBitsPrior => {
                let sent = SentFrame::read(alloc, fields)?;
                let prior = sent.prior(alloc, fields)?;
                Ok(decode_bits_prior(alloc, &sent.metrics, &prior)?)
            }
            Call::DecodeBits => {
                let sent = SentFrame::read(alloc, fields)?;
                Ok(decode_bits(alloc, &sent.metrics)?)
            }
        }
    }
}
