//! The header extensions of RTP packets (RFC 8285): what each id is mapped to, and the elements of
//! a block, from bytes and back.
#![tactic(auto)]

mod block_elements;
mod block_form;
mod block_values;
mod element_data;
mod element_list;
mod elements;
mod form;
mod form_change;
mod gathering;
mod iter;
mod kinds;
mod kinds_by_id;
mod known_ids;
mod left_out;
mod map;
mod new_ids;
mod place;
mod raw_writing;
mod renamed_ids;
mod rewriting;
mod slots;
mod survey;

pub use block_elements::{values_len, values_len_at_most, write_values};
pub use block_form::values_form;
pub use block_values::{read_apart, read_layers, read_values};
pub use element_data::{element_of, set_element, set_sole};
pub use element_list::ElementList;
pub use elements::Elements;
pub use form::{ExtensionsForm, MAX_ID_ONE_BYTE_FORM, form_to_put};
pub use gathering::compact_body;
pub use iter::{Iter, IterByMediaType};
pub use kinds::Kinds;
pub use known_ids::{KnownIds, KnownItems};
pub use left_out::values_left_out;
pub use map::{ExtensionMap, MAX_ID};
pub use new_ids::NewIds;
pub use place::{Place, can_renumber, last_place, next_place, remove_element, renumber};
pub use raw_writing::{put_element, put_elements, write_elements};
pub use rewriting::{rewrite_body, rewritten_len};
pub use rtp_values::{
    AbsCaptureTime, CarriedLayers, ElementValues, Extension, ExtensionValues, KindSet, KnownKind,
    Uri, ValueKinds, VideoOrientation, VideoTiming, WithLayers, standard,
};
pub use survey::{Survey, survey_of};
