//! What runs ask of keys and requests.
ghost use Rattle.script_keys.specs.Laws.{KeyedLaw, RequestsLaw};

/// What runs ask of whatever is made with a script's members and keys. Each replica's key is in the ring, and each signature that it
/// gives is valid under it and has a place in a message (`keyed`). Each copy of a request is sound for its receiver (`requests`).
pub fn keys_law()
    ensures keyed { KeyedLaw }
    ensures requests { RequestsLaw }
{}
