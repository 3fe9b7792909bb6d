// What the outputs say of every legal order of events.

ghost use Rattle.dict_report.specs.Orders.{OutputsHold};

/// What the lines of each output say holds of every legal order of events.
pub(crate) fn outputs_hold()
    ensures { OutputsHold }
{
    dict_laws::known_samples();
    dict_text::patched_samples();
    pick_laws::kept_strobes();
    order_laws::grades();
    order_laws::orders_exist();
}
