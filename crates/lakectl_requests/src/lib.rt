//! What the words of `lakectl` send reads back as the request that they make.
//!
//! The promise to the layer above: the text of the request of a line of words, with any bytes behind it, reads as that
//! request by the reader of `http_wire`, and those bytes are left; a head or a body above the reader's limits is told.
#![tactic(auto)]

ghost use Rattle.std.specs.Prelude.{◌≡◌, ◌<◌, ◌^◌, ◌++◌, List, ℕ, Ok, Option, Result, Some, length};
ghost use Rattle.http_wire.specs.Messages.{IsRequestAnswer, ReadsRequestAt};
ghost use Rattle.http_wire.specs.declared.fault.WireFault.{WireFault};
ghost use Rattle.http_wire.specs.declared.message.Request.{Request};
ghost use Rattle.lakectl_words.specs.WireRequests.{call_of, request_text, sent};
ghost use Rattle.lakectl_words.specs.declared.call.WireCall.{WireCall};
ghost use Rattle.lakectl_requests.specs.SentReadings.{IsFieldValue, IsSentAnswer, read_back};

/// What a line of words sends reads back. The text of its request, with any bytes behind it, reads as `read_back` says;
/// so does that of its call, before a file's bytes and the host are put in; and so answers a call that reads these
/// bytes, unless its source fails or it finds no memory. The host is a value that can stand in a field: no other reads
/// back as it is. The number of the body's bytes has at most 19 digits.
pub fn law_of_sent_requests()
    ensures words { (words : List (List ℕ)) (call : WireCall) (rest : List ℕ) → call_of words ≡ Ok call
        → length call.request.body < 10 ^ 19
        → ReadsRequestAt (request_text call.request ++ rest) (read_back call.request rest) }
    ensures sent { (host : List ℕ) (words : List (List ℕ)) (files : List ℕ → Option (List ℕ)) (request : Request)
        (rest : List ℕ) → sent host words files ≡ Some request → IsFieldValue host → length request.body < 10 ^ 19
        → ReadsRequestAt (request_text request ++ rest) (read_back request rest) }
    ensures call { (host : List ℕ) (words : List (List ℕ)) (files : List ℕ → Option (List ℕ)) (request : Request)
        (rest before had : List ℕ) (result : Result Request WireFault) (held : List ℕ) (left : Option (List ℕ))
        → sent host words files ≡ Some request → IsFieldValue host → length request.body < 10 ^ 19
        → before ++ had ≡ request_text request ++ rest
        → IsRequestAnswer before had result held left → IsSentAnswer request rest result held left }
    ensures host { (host : List ℕ) (words : List (List ℕ)) (files : List ℕ → Option (List ℕ)) (request : Request)
        (rest left : List ℕ) → sent host words files ≡ Some request
        → ReadsRequestAt (request_text request ++ rest) (Ok (request, left)) → IsFieldValue host }
{}
