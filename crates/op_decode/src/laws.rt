ghost use Rattle.std.specs.Prelude.{◌≡◌, ℕ, true, false, List, ◌∷◌, ◌++◌, length, map, Some, None, is_some, codes};
ghost use Rattle.std.specs.Prelude.{Option, Ok, Err};
ghost use Rattle.std.specs.List.{list_any};
ghost use Rattle.http_front.specs.declared.raw.Raw.{Raw};
ghost use Rattle.head_text.specs.Headers.{first_header, is_named};
ghost use Rattle.namespace_model.specs.declared.caller.Caller.{Caller};
ghost use Rattle.namespace_model.specs.declared.code.Code.{Code};
ghost use Rattle.namespace_model.specs.declared.code.Code.TheVariants.{InvalidUri, UnsupportedContentEncoding};
ghost use Rattle.namespace_model.specs.declared.code.Code.TheVariants.{UnsupportedHttpVerb};
ghost use Rattle.namespace_model.specs.declared.op.Op.{Op};
ghost use Rattle.namespace_model.specs.Sound.{IsSound};
ghost use Rattle.op_decode.specs.declared.operation.Operation.{Operation};
ghost use Rattle.op_decode.specs.Callers.{caller_of};
ghost use Rattle.op_decode.specs.Decoded.{decoded, has_other_encoding};
ghost use Rattle.op_decode.specs.HeaderValues.{lease_id_in, source_lease_id_in};
ghost use Rattle.op_decode.specs.Laws.{IsRefused, IsTaken, PassesAll, PassesCaller, PassesOperation, PassesRow};
ghost use Rattle.op_decode.specs.Laws.{PassesTarget, known_names, lowered, with_headers};
ghost use Rattle.op_decode.specs.Methods.{method_of};
ghost use Rattle.op_decode.specs.Operations.{operation_of, takes};
ghost use Rattle.op_decode.specs.Renames.{begins_with};
ghost use Rattle.op_decode.specs.Rows.{op_of_row};
ghost use Rattle.op_decode.specs.Targets.{target_of};

/// The checks go in their order: what one refuses is refused so, whatever the later ones would say; up to the third
/// without a caller.
pub fn checks_go_in_their_order()
    ensures encoding { (raw : Raw) → has_other_encoding raw ≡ true → IsRefused raw None UnsupportedContentEncoding }
    ensures target { (raw : Raw) (code : Code) → has_other_encoding raw ≡ false → target_of raw.target ≡ Err code →
        IsRefused raw None code }
    ensures caller { (raw : Raw) (path : List (List ℕ)) (query : List (List ℕ × List ℕ)) (code : Code) →
        PassesTarget raw path query → caller_of raw ≡ Err code → IsRefused raw None code }
    ensures operation { (raw : Raw) (path : List (List ℕ)) (query : List (List ℕ × List ℕ)) (who : Caller) →
        PassesCaller raw path query who → operation_of (method_of raw) query raw ≡ None →
        IsRefused raw (Some who) UnsupportedHttpVerb }
    ensures parts { (raw : Raw) (path : List (List ℕ)) (query : List (List ℕ × List ℕ)) (who : Caller)
        (operation : Operation) →
        PassesCaller raw path query who → operation_of (method_of raw) query raw ≡ Some operation →
        takes operation (length path) ≡ false →
        IsRefused raw (Some who) InvalidUri }
    ensures row { (raw : Raw) (path : List (List ℕ)) (query : List (List ℕ × List ℕ)) (who : Caller)
        (operation : Operation) (code : Code) →
        PassesOperation raw path query who operation → op_of_row operation path query raw ≡ Err code →
        IsRefused raw (Some who) code }
    ensures lease { (raw : Raw) (path : List (List ℕ)) (query : List (List ℕ × List ℕ)) (who : Caller)
        (operation : Operation) (op : Op) (code : Code) →
        PassesRow raw path query who operation op → lease_id_in (codes "x-ms-lease-id") raw ≡ Err code →
        IsRefused raw (Some who) code }
    ensures source_lease { (raw : Raw) (path : List (List ℕ)) (query : List (List ℕ × List ℕ)) (who : Caller)
        (operation : Operation) (op : Op) (given : Option ℕ) (code : Code) →
        PassesRow raw path query who operation op → lease_id_in (codes "x-ms-lease-id") raw ≡ Ok given →
        source_lease_id_in raw ≡ Err code → IsRefused raw (Some who) code }
{}

/// A request that is not refused passes every check, and has the caller, the lease ids and the conditions that were
/// read.
pub fn a_taken_request_passes_every_check()
    ensures { (raw : Raw) (op : Op) → (decoded raw).op ≡ op → IsTaken op → PassesAll raw op }
{}

/// Whatever a request is, the decoded one is sound.
pub fn every_decoded_request_is_sound()
    ensures { (raw : Raw) → IsSound (decoded raw) }
{}

/// The names of headers may be written in any case.
pub fn names_of_headers_have_no_case()
    ensures { (raw : Raw) (headers others : List (List ℕ × List ℕ)) → map lowered headers ≡ map lowered others →
        decoded (with_headers raw headers) ≡ decoded (with_headers raw others) }
{}

/// A header behind another one of its name changes nothing.
pub fn the_first_of_a_name_counts()
    ensures { (raw : Raw) (front back : List (List ℕ × List ℕ)) (header : List ℕ × List ℕ) →
        is_some (first_header header.0 front) ≡ true →
        decoded (with_headers raw (front ++ header ∷ back)) ≡ decoded (with_headers raw (front ++ back)) }
{}

/// A header changes nothing whose name decoding does not know, and does not begin with `x-ms-source-if-`.
pub fn other_headers_are_ignored()
    ensures { (raw : Raw) (front back : List (List ℕ × List ℕ)) (header : List ℕ × List ℕ) →
        list_any (λ name. is_named name header) known_names ≡ false →
        begins_with (codes "x-ms-source-if-") header ≡ false →
        decoded (with_headers raw (front ++ header ∷ back)) ≡ decoded (with_headers raw (front ++ back)) }
{}
