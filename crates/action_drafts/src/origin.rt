// Who an action is from: the elements `vendor`, `vendor_url` and `icon_name`.
ghost use Rattle.std.specs.Prelude.{◌≡◌, is_some};
ghost use Rattle.xml_pieces.specs.Reading.{Gives};
ghost use Rattle.action_drafts.specs.Origins.{origin_part, origin_of, with_origin, origin_element};

use crate::draft::{Element, Origin, OriginPart};
use pk_types::Text;
use std::alloc::Global;
use xml_pieces::{Stop, XmlFaultKind, fault_at, start_tag, text};

/// Which of the three elements has that name.
pub fn origin_part(name: &[u8]) -> Option<OriginPart>
    ensures part { result ≡ origin_part name.now }
{
    if name == b"vendor".as_slice() {
        Some(OriginPart::Vendor)
    } else if name == b"vendor_url".as_slice() {
        Some(OriginPart::VendorUrl)
    } else if name == b"icon_name".as_slice() {
        Some(OriginPart::Icon)
    } else {
        None
    }
}

impl Origin {
    fn has(&self, which: OriginPart) -> bool
        ensures has { result ≡ is_some (origin_of which self.now) }
    {
        match which {
            OriginPart::Vendor => self.vendor.is_some(),
            OriginPart::VendorUrl => self.vendor_url.is_some(),
            OriginPart::Icon => self.icon.is_some(),
        }
    }

    fn set(&mut self, which: OriginPart, text: Text)
        ensures set { self.new ≡ with_origin which text self.old }
    {
        match which {
            OriginPart::Vendor => self.vendor = Some(text),
            OriginPart::VendorUrl => self.vendor_url = Some(text),
            OriginPart::Icon => self.icon = Some(text),
        }
    }
}

/// A vendor, URL or icon.
#[tactic(auto, unfolding(crate::specs::Origins::origin_element))]
pub fn origin_element<'a>(
    alloc: Global,
    which: OriginPart,
    element: Element<'a>,
    origin: &mut Origin,
) -> Result<&'a [u8], Stop>
    ensures exact { Gives (λ x. (origin.new, x.now)) result (origin_element which element.entry.name.now element.entry.place.now origin.old element.entry.rest.now) }
{
    if origin.has(which) {
        return Err(fault_at(XmlFaultKind::Repeated, element.place));
    }
    let tag = start_tag(alloc, false, element.rest)?;
    let (text, rest) = text(alloc, element.name, element.place, &tag)?;
    origin.set(which, text);
    Ok(rest)
}
