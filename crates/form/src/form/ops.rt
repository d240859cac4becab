ghost use Rattle.std.specs.Prelude.{◌≡◌, true, IfOk};
ghost use Rattle.form.specs.Sets.{ascending, symmetric_difference, is_empty, same_set, lowest_outside};
ghost use Rattle.form.specs.Shapes.{shape, zero_form, element_form, xor_form, inverted_form};

use super::Form;
use std::alloc::{AllocError, Global};

// The elements in just one of two ascending slices, ascending.
fn merge(heap: Global, mut a: &[u16], mut b: &[u16]) -> Result<Vec<u16>, AllocError>
    requires left { ascending a.now ≡ true }
    requires right { ascending b.now ≡ true }
    ensures is_symmetric_difference { IfOk result (λ v. v.items ≡ symmetric_difference a.entry.now b.entry.now) }
    ensures ascends { IfOk result (λ v. ascending v.items ≡ true) }
{
    let mut out = Vec::with_capacity(heap, a.len().saturating_add(b.len()))?;
    // one side at a time: a pair of both made each step twice as dear
    while let Some((x, more_a)) = a.split_first() {
        let Some((y, more_b)) = b.split_first() else {
            break;
        };
        if x < y {
            out.push_reserved(*x);
            a = more_a;
        } else if y < x {
            out.push_reserved(*y);
            b = more_b;
        } else {
            a = more_a;
            b = more_b;
        }
    }
    out.extend_from_slice(a)?;
    out.extend_from_slice(b)?;
    Ok(out)
}

impl Form {
    // The form with no element and constant 0.
    pub fn zero(heap: Global) -> Form
        ensures is_zero { shape result ≡ zero_form }
    {
        Form {
            elements: Vec::new(heap),
            constant: false,
        }
    }

    // The form of one basis element.
    pub fn element(heap: Global, i: u16) -> Result<Form, AllocError>
        ensures is_the_element { IfOk result (λ f. shape f ≡ element_form i) }
    {
        let mut form = Form::zero(heap);
        form.elements.push(i)?;
        Ok(form)
    }

    // The XOR of two forms: the elements in just one of them, and the XOR of the constants.
    pub fn xor(&self, other: &Form, heap: Global) -> Result<Form, AllocError>
        ensures is_xor { IfOk result (λ f. shape f ≡ xor_form (shape self.now) (shape other.now)) }
    {
        Ok(Form {
            elements: merge(heap, self.elements(), other.elements())?,
            constant: self.constant ^ other.constant,
        })
    }

    // The complement: the same elements, the constant flipped.
    pub fn invert(self) -> Form
        ensures is_complement { shape result ≡ inverted_form (shape self) }
    {
        Form {
            elements: self.elements,
            constant: !self.constant,
        }
    }

    // Whether the form has no element.
    pub fn is_empty(&self) -> bool
        ensures tells_if_empty { result ≡ is_empty (shape self.now).set }
    {
        self.elements.is_empty()
    }

    pub fn constant(&self) -> bool
        ensures is_the_constant { result ≡ (shape self.now).constant }
    {
        self.constant
    }

    // Whether two forms have the same elements.
    pub fn same_set(&self, other: &Form) -> bool
        ensures tells_if_same { result ≡ same_set (shape self.now).set (shape other.now).set }
    {
        self.elements == other.elements
    }

    // The elements, ascending.
    pub fn elements(&self) -> &[u16]
        ensures are_the_elements { result.now ≡ (shape self.now).set }
    {
        self.elements.as_slice()
    }

    // The lowest element that the other form does not have.
    pub fn lowest_outside(&self, other: &Form) -> Option<u16>
        ensures is_lowest_outside { result ≡ lowest_outside (shape self.now).set (shape other.now).set }
    {
        self.elements()
            .iter()
            .copied()
            .find(|e| !other.elements().contains(e))
    }
}

// By hand: no derive writes `Clone` for a struct with ghost fields.
impl Clone for Form {
    ghost is_clone = { λ f g. shape g ≡ shape f };

    fn clone(&self) -> Result<Form, AllocError> {
        Ok(Form {
            elements: self.elements.clone()?,
            constant: self.constant,
        })
    }
}
