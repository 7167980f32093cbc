//! What holds of what is read and written, as functions that do nothing.
ghost use Rattle.std.specs.Prelude.{◌≡◌, ◌++◌, Bool, Err, List, ℕ, Ok, Option, Result};
ghost use Rattle.http_wire.specs.Messages.{ReadsRequestAt, ReadsReplyAt, IsReplyAnswer, Stays};
ghost use Rattle.http_wire.specs.ReadBack.{IsReadable, IsReadBack, as_read};
ghost use Rattle.http_wire.specs.ReplyText.{reply_text, no_memory_reply};
ghost use Rattle.http_wire.specs.declared.fault.WireFault.{WireFault as AnyFault};
ghost use Rattle.http_wire.specs.declared.fault.WireFault.TheVariants.{BodyTooLong};
ghost use Rattle.http_wire.specs.declared.message.Reply.{Reply as AnyReply};
ghost use Rattle.http_wire.specs.declared.message.Request.{Request as AnyRequest};

/// The same bytes have one answer: they give one request, or one first fault; and so of replies.
pub fn law_of_one_answer()
    ensures request { (bytes : List ℕ) (one other : Result (AnyRequest × List ℕ) AnyFault)
        → ReadsRequestAt bytes one → ReadsRequestAt bytes other → one ≡ other }
    ensures reply { (bytes : List ℕ) (one other : Result (AnyReply × List ℕ) AnyFault)
        → ReadsReplyAt bytes one → ReadsReplyAt bytes other → one ≡ other }
{}

/// What stands behind a message changes nothing of it, nor of a fault that isn't the bytes' end.
pub fn law_of_longer_bytes()
    ensures request { (bytes more : List ℕ) (request : AnyRequest) (behind : List ℕ)
        → ReadsRequestAt bytes (Ok (request, behind)) → ReadsRequestAt (bytes ++ more) (Ok (request, behind ++ more)) }
    ensures request_fault { (bytes more : List ℕ) (fault : AnyFault) → Stays fault
        → ReadsRequestAt bytes (Err fault) → ReadsRequestAt (bytes ++ more) (Err fault) }
    ensures reply { (bytes more : List ℕ) (reply : AnyReply) (behind : List ℕ)
        → ReadsReplyAt bytes (Ok (reply, behind)) → ReadsReplyAt (bytes ++ more) (Ok (reply, behind ++ more)) }
    ensures reply_fault { (bytes more : List ℕ) (fault : AnyFault) → Stays fault
        → ReadsReplyAt bytes (Err fault) → ReadsReplyAt (bytes ++ more) (Err fault) }
{}

/// No reply is refused for the length of its body.
pub fn law_of_long_bodies()
    ensures { (bytes : List ℕ) (n : ℕ) → ReadsReplyAt bytes (Err (BodyTooLong n)) → ⊥ }
{}

/// What is written of a reply reads back as that reply, and whatever stands behind it is left: so answers a call that
/// reads it, unless its source fails or it finds no memory. The reply of want of memory reads back as itself.
pub fn law_of_reading_back()
    ensures text { (reply : AnyReply) (rest : List ℕ) → IsReadable reply
        → ReadsReplyAt (reply_text reply ++ rest) (Ok (as_read reply, rest)) }
    ensures call { (reply : AnyReply) (rest before had : List ℕ) (result : Result AnyReply AnyFault) (held : List ℕ)
        (left : Option (List ℕ)) → IsReadable reply → before ++ had ≡ reply_text reply ++ rest
        → IsReplyAnswer before had result held left → IsReadBack reply rest result held left }
    ensures no_memory { (close : Bool) (rest : List ℕ)
        → ReadsReplyAt (reply_text (no_memory_reply close) ++ rest) (Ok (no_memory_reply close, rest)) }
{}
