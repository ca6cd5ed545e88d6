use ga_ports::{Gate, HoldGate};
use std::test::Fail;

/// No worker but worker 0 sees another pass, and none but worker 1 is waited for.
#[test]
fn a_worker_alone_meets_nobody(rt: HostRuntime) -> Result<(), Fail> {
    for worker in [1, 2] {
        let gate = HoldGate::new();
        gate.pass(worker);
        assert!(rt; !gate.met());
    }
    Ok(())
}

#[test]
fn worker_0_meets_worker_1_that_passed_before(rt: HostRuntime) -> Result<(), Fail> {
    let gate = HoldGate::new();
    gate.pass(1);
    gate.pass(0);
    assert!(rt; gate.met());
    Ok(())
}
