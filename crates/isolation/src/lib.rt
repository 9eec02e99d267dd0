// Non-interference: what another company hangs cannot be seen in any answer (document 02, request 14). No
// code: the claim in `specs/`, of the definitions that the contracts name, and its theorem in `proofs/`.
#![tactic(auto)]
