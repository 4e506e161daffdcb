// Writes the seven-bit code and its product with itself in the alist form.
#![tactic(auto)]

ghost use Rattle.std.specs.Prelude.{IfOk};
ghost use Rattle.codes.specs.Cross.{product_pairs};
ghost use Rattle.codes.specs.Lawful.{Lawful};
ghost use Rattle.codes.specs.Means.{product_of};
ghost use Rattle.seven.specs.Means.{seven_of};
ghost use Rattle.seven.specs.Seven.{seven_pairs};

use codes::{Code, Product};
use faults::Fault;
use seven::Seven;
use std::alloc::Global;

mod text;

use text::push_alist;

// The product of the seven-bit code with itself.
fn square(heap: Global) -> Result<Product<Seven, Seven>, Fault>
    ensures { IfOk result (λ p. Lawful (product_of seven_of seven_of p) (product_pairs seven_pairs seven_pairs)) }
{
    Product::new(Seven::new(heap)?, Seven::new(heap)?)
}

fn run(rt: &HostRuntime) -> anyhow::Result<()> {
    let code = Seven::new(rt.alloc())?;
    let product = square(rt.alloc())?;
    let mut text = String::new(rt.alloc());
    push_alist(&mut text, &code)?;
    push_alist(&mut text, &product)?;
    print!(rt; "{text}")?;
    let bits = code.bits();
    let checks = code.checks();
    let product_bits = product.bits();
    let product_checks = product.checks();
    println!(rt;
        "wrote {bits} bits by {checks} checks and {product_bits} bits by {product_checks} checks"
    )?;
    Ok(())
}

fn main(rt: HostRuntime) -> anyhow::Result<()> {
    run(&rt)
}
