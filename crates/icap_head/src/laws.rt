//! What holds of all heads: each law is the contract of a function that does nothing.
ghost use Rattle.std.specs.Prelude.{◌≡◌, ◌≢◌, ℕ, ◌<◌, ◌≤◌, ◌↔◌, ◌++◌, List, length, take};
ghost use Rattle.adapt_bytes.specs.declared.limits.TheConstants.{MAX_FIELDS, MAX_HEAD};
ghost use Rattle.icap_head.specs.declared.reading.HeadFault.{HeadFault};
ghost use Rattle.icap_head.specs.Folds.{unfolded};
ghost use Rattle.icap_head.specs.Heads.{Request, Response, HasRequest, HasPlainResponse, HasResponse, IsRequestHead, IsResponseHead, RefusesIcapHead, RefusesResponse};
ghost use Rattle.icap_head.specs.StartLines.{RequestForm};
ghost use Rattle.icap_head.specs.Written.{IsRequest, IsResponse, request_text, response_text};

/// A text begins with at most one head, of one length.
pub fn one_head()
    ensures requests { (text : List ℕ) (value other : Request) (size length : ℕ)
        → HasRequest text value size → HasRequest text other length → (value ≡ other) × (size ≡ length) }
    ensures responses { (text : List ℕ) (value other : Response) (size length : ℕ)
        → HasResponse text value size → HasResponse text other length → (value ≡ other) × (size ≡ length) }
{}

/// If a fault applies, there is no head and no other fault.
pub fn one_fault()
    ensures requests { (text : List ℕ) (fault other : HeadFault)
        → RefusesIcapHead RequestForm fault text → RefusesIcapHead RequestForm other text → fault ≡ other }
    ensures responses { (text : List ℕ) (fault other : HeadFault)
        → RefusesResponse fault text → RefusesResponse other text → fault ≡ other }
    ensures no_request { (text : List ℕ) (fault : HeadFault) (value : Request) (size : ℕ)
        → RefusesIcapHead RequestForm fault text → ¬ (HasRequest text value size) }
    ensures no_response { (text : List ℕ) (fault : HeadFault) (value : Response) (size : ℕ)
        → RefusesResponse fault text → ¬ (HasResponse text value size) }
{}

/// Each text has an answer: it can't be that it begins with no head and no fault applies, `More` among them.
pub fn some_answer()
    ensures requests { (text : List ℕ) → ((value : Request) (size : ℕ) → ¬ (HasRequest text value size))
        → ((fault : HeadFault) → ¬ (RefusesIcapHead RequestForm fault text)) → ⊥ }
    ensures responses { (text : List ℕ) → ((value : Response) (size : ℕ) → ¬ (HasResponse text value size))
        → ((fault : HeadFault) → ¬ (RefusesResponse fault text)) → ⊥ }
{}

/// A head stays the same whatever follows.
pub fn heads_stay()
    ensures requests { (text more : List ℕ) (value : Request) (size : ℕ)
        → HasRequest text value size → HasRequest (text ++ more) value size }
    ensures responses { (text more : List ℕ) (value : Response) (size : ℕ)
        → HasResponse text value size → HasResponse (text ++ more) value size }
{}

/// A head of a response without folds is read as it is. One with folds has as many bytes in the text as
/// in the copy where its folds are written over, and these bytes give that part of the copy also
/// without what follows them.
pub fn folds_are_spaces()
    ensures plain { (text : List ℕ) (value : Response) (size : ℕ) → HasPlainResponse text value size → HasResponse text value size }
    ensures alone { (text : List ℕ) (value : Response) (size : ℕ) → HasResponse text value size
        → (unfolded (take size text) ≡ take size (unfolded text)) × (length (unfolded (take size text)) ≡ size) }
{}

/// A fault other than `More` stays the same whatever follows.
pub fn faults_stay()
    ensures requests { (text more : List ℕ) (fault : HeadFault) → fault ≢ HeadFault.More
        → RefusesIcapHead RequestForm fault text → RefusesIcapHead RequestForm fault (text ++ more) }
    ensures responses { (text more : List ℕ) (fault : HeadFault) → fault ≢ HeadFault.More
        → RefusesResponse fault text → RefusesResponse fault (text ++ more) }
{}

/// A head that was cut anywhere before its last byte is `More`.
pub fn beginnings_are_more()
    ensures requests { (text : List ℕ) (value : Request) (size cut : ℕ)
        → HasRequest text value size → cut < size → RefusesIcapHead RequestForm HeadFault.More (take cut text) }
    ensures responses { (text : List ℕ) (value : Response) (size cut : ℕ)
        → HasResponse text value size → cut < size → RefusesResponse HeadFault.More (take cut text) }
{}

/// The values that can be written are those that some head holds.
pub fn writes_what_heads_hold()
    ensures requests { (value : Request) → IsRequest value ↔ ((text : List ℕ) × IsRequestHead text value) }
    ensures responses { (value : Response) → IsResponse value ↔ ((text : List ℕ) × IsResponseHead text value) }
{}

/// What is written within the limits is read back: a head of at most 100 fields and 16,384 bytes is found whole,
/// whatever follows. A written head beyond the limits is a head too, and its reader refuses it like any other.
pub fn reads_what_it_writes()
    ensures requests { (value : Request) (more : List ℕ) → IsRequest value → length value.fields ≤ MAX_FIELDS
        → length (request_text value) ≤ MAX_HEAD → HasRequest (request_text value ++ more) value (length (request_text value)) }
    ensures responses { (value : Response) (more : List ℕ) → IsResponse value → length value.fields ≤ MAX_FIELDS
        → length (response_text value) ≤ MAX_HEAD → HasResponse (response_text value ++ more) value (length (response_text value)) }
{}
