//! What receivers have in common, prepared once for all packets.

ghost use Rattle.std.specs.Prelude.{◌≡◌, ◌≢◌, ◌↔◌, ◌≤◌, Option, All, IfSome, IfNone};
ghost use Rattle.rtp_ext.specs.declared.form.ExtensionsForm.{ExtensionsForm};
ghost use Rattle.rtp_ext.specs.NewIds.{ids_in_bytes};
ghost use Rattle.rtp_route.specs.declared.not_routed.NotRouted.{NotRouted};
ghost use Rattle.rtp_route.specs.StoredGroup.{IsGroupOf, KeepsFromGroup};
ghost use Rattle.rtp_c.specs.PacketView.{form_number};
ghost use Rattle.rtp_c.specs.PreparedGroup.{blank_views, NamesShapes};
ghost use Rattle.rtp_c.specs.RoutedStatus.{IsNotRoutedStatus};
ghost use Rattle.rtp_c.specs.Status.{ok, bad_field};

use super::blank_elements::BlankElements;
use super::map::StoredNewIds;
use super::packet::{ElementView, allowed_of};
use super::status::{BAD_FIELD, OK};
use super::template::not_routed_status;
use rtp_ext::NewIds;
use rtp_route::{GroupOf, MAX_ELEMENTS, StoredGroup, prepare_group};

/// Checks and tables what receivers have in common, once for all packets (RFC 7667, 3.7; RFC 8285,
/// 5): the new ids of a packet's elements, the elements that are put into it, each of its id and with
/// as many bytes of data as it names, which each receiver brings, and the form of which the number
/// `allowed` is as in `rtpw_put_element`. Where the elements' data lie isn't looked at.
///
/// `OK`; `BAD_FIELD` where `allowed` is above 2, there are more than 16 elements, one has more than
/// 255 bytes of data, or two have one id; or `BAD_ID` where one has the id 0. Where it isn't `OK`
/// nothing is written.
#[unsafe(no_mangle)]
pub extern "C" fn rtpw_prepare_group(
    ids: &StoredNewIds,
    elements: &[ElementView],
    allowed: u8,
    group: &mut StoredGroup,
) -> i32
    ensures prepared { (form : Option ExtensionsForm) → form_number form ≡ allowed → result ≡ ok →
        IsGroupOf (ids_in_bytes ids.now.id) (blank_views elements.now) form group.new }
    ensures bad_group { ((form : Option ExtensionsForm) →
        NamesShapes elements.now allowed form → ⊥) → result ≡ bad_field }
    ensures refusal { (form : Option ExtensionsForm) → NamesShapes elements.now allowed form →
        result ≢ ok → IsNotRoutedStatus (KeepsFromGroup (blank_views elements.now)) result }
    ensures refused { (form : Option ExtensionsForm) → NamesShapes elements.now allowed form →
        result ≢ ok ↔ ((cause : NotRouted) × KeepsFromGroup (blank_views elements.now) cause) }
    ensures unchanged { result ≢ ok → group.new ≡ group.old }
{
    let Some(allowed) = allowed_of(allowed) else {
        return BAD_FIELD;
    };
    if elements.len() > MAX_ELEMENTS {
        return BAD_FIELD;
    }
    let Some(elements) = BlankElements::new(elements) else {
        return BAD_FIELD;
    };
    let ids = NewIds::from_ids(&ids.id);
    let given = GroupOf {
        ids: &ids,
        elements,
        allowed,
    };
    match prepare_group(&given) {
        Ok(made) => {
            *group = made;
            OK
        }
        Err(cause) => not_routed_status(cause),
    }
}
