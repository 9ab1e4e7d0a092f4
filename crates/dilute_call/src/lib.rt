// What the dilution of one barcode hands to C.
#![tactic(auto)]

ghost use Rattle.std.specs.Prelude.{◌≡◌};
ghost use Rattle.dilution.specs.Dilution.{dilute_rule};
ghost use Rattle.handed.specs.Out.{out};
ghost use Rattle.dilution.specs.Dilution.{volumes};
ghost use Rattle.dilute_call.specs.Volumes.{volumes_out};

// The dilution of one barcode: the volumes of sample and diluent, in tenths of a microlitre.
pub fn dilute(
    table: &[u8],
    index: &[u8],
    barcode_field: u32,
    concentration_field: u32,
    barcode: &[u8],
    target: u64,
    final_volume: u64,
    sample: &mut u32,
    diluent: &mut u32,
) -> u32
    ensures { volumes_out
        (dilute_rule table.now index.now barcode_field concentration_field barcode.now target final_volume)
        (volumes sample.old diluent.old)
        ≡ out result (volumes sample.new diluent.new) }
{
    let answer = dilution::dilute(
        table,
        index,
        barcode_field,
        concentration_field,
        barcode,
        target,
        final_volume,
    );
    match answer {
        Ok(volumes) => {
            *sample = volumes.sample;
            *diluent = volumes.diluent;
            0
        }
        Err(refusal) => refusal.number(),
    }
}
